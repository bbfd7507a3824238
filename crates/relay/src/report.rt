//! The messages printed when a command fails.
use relay_words::Exit;
use std::io::ErrorKind;

/// Prints that an allocation failed.
pub fn out_of_memory<R: Eprint>(rt: &R) -> Exit {
    let _ = rt.eprintln("out of memory");
    Exit::Memory
}

/// Prints what is wrong with the command line.
pub fn usage<R: Eprint>(rt: &R, text: &str) -> Exit {
    let _ = rt.eprintln(text);
    Exit::Usage
}

/// Prints what is wrong with a file, and returns the exit status.
pub fn said<R: Eprint>(rt: &R, path: &str, text: &str, exit: Exit) -> Exit {
    let _ = eprintln!(rt; "{path}: {text}");
    exit
}

/// Prints what failed for a file and, beneath it, the system's reason, if that is known. Returns the
/// exit status.
pub fn failed<R: Eprint>(rt: &R, path: &str, text: &str, reason: Option<ErrorKind>) -> Exit {
    let exit = said(rt, path, text, Exit::Device);
    if let Some(reason) = reason {
        let _ = eprintln!(rt; "  {reason}");
    }
    exit
}
