//! The options of a run.
ghost use Rattle.std.specs.Prelude.{◌≡◌, ◌≢◌, ◌⊎◌, ◌↔◌, ◌≤◌, ◌||◌, IsTrue, Some, false, true};
ghost use Rattle.std.specs.Prelude.{is_some, map, option_map, string_bytes, vec_len};
ghost use Rattle.relay_core.specs.Limits.{is_valid};
ghost use Rattle.relay_http.specs.WrittenRequest.{is_host};
ghost use Rattle.relay_run.specs.Sources.{is_given, leaves_apart, named_count, standard_name};
ghost use Rattle.relay_run.specs.Sources.{may_resume, stands_apart};

use crate::source::{STANDARD_NAME, count_named};
use relay_action::DocKey;
use relay_http::is_host;
use relay_lane::RelayConfig;
use relay_progress::Log;
use relay_resume::INPUT_LIMIT;

/// The options of a run.
#[derive(Drop)]
pub struct RunOptions {
    /// The paths of the files, one for each producer; `-` is standard input.
    pub files: Vec<String>,
    /// The address of the index, `HOST:PORT`, 1 to 255 visible ASCII characters; it is also the
    /// host of the requests.
    pub to: String,
    /// The index of operations that do not name one.
    pub index: Option<String>,
    /// The config of the relay.
    pub config: RelayConfig,
    /// The counter document, if the epoch of the run is taken from the index and not from the
    /// config.
    pub epoch_from: Option<DocKey>,
    /// For how many seconds connecting may take, and reading or writing a whole message, before it
    /// fails; 0 means no limit.
    pub timeout: u32,
    /// For how many seconds to keep trying to connect, once a second, before that counts as failed.
    pub patience: u32,
    /// The path of the file in which the reports are saved, if they are.
    pub report: Option<String>,
    /// The path of the file to which the lines of invalid operations go, if these are left out.
    pub skip_invalid: Option<String>,
    /// The path of the file in which the state of the run is kept, if it is.
    pub state: Option<String>,
    /// The path of the file that ends the run once it is there, if there is one.
    pub until: Option<String>,
    /// Whether the reports, and the lines of invalid operations, are added to what their files have.
    /// Otherwise these have to be empty, or absent.
    pub append: bool,
    /// How many operations may be reported before no more is read; 0 means any number.
    pub max_reports: u32,
    /// Whether to show on standard error how far the run has got.
    pub progress: bool,
    /// What is said on standard error of what goes wrong meanwhile.
    pub log: Log,
}

impl RunOptions {
    /// Whether the config is valid, there is a producer for each file, and the address may be the
    /// host of a request.
    pub fn is_valid(&self) -> bool
        ensures valid { IsTrue result → is_valid self.now.config ≡ true }
        ensures host { IsTrue result → IsTrue (is_host (string_bytes self.now.to)) }
        ensures files { IsTrue result → vec_len self.now.files ≡ self.now.config.producers }
        ensures refused { result ≡ false → (is_valid self.now.config ≡ false)
            ⊎ (is_host (string_bytes self.now.to) ≡ false)
            ⊎ (vec_len self.now.files ≢ self.now.config.producers) }
    {
        self.config.valid()
            && is_host(self.to.as_str())
            && self.files.len() == self.config.producers as usize
    }

    /// Whether at most one producer reads standard input, `-`.
    pub fn reads_input_once(&self) -> bool
        ensures { IsTrue result
            ↔ named_count standard_name (map string_bytes self.now.files.items) ≤ 1 }
    {
        count_named(&self.files, STANDARD_NAME) <= 1
    }

    /// Whether the path for the reports is neither one of the files that are read nor `-`.
    pub fn saves_apart(&self) -> bool
        ensures { result ≡ stands_apart (option_map string_bytes self.now.report)
            (map string_bytes self.now.files.items) }
    {
        match &self.report {
            Some(report) => is_apart(report.as_str(), &self.files),
            None => true,
        }
    }

    /// Whether the path for the lines of invalid operations is neither one of the files that are
    /// read, nor `-`, nor that for the reports.
    pub fn leaves_apart(&self) -> bool
        ensures { result ≡ leaves_apart (option_map string_bytes self.now.skip_invalid)
            (option_map string_bytes self.now.report) (map string_bytes self.now.files.items) }
    {
        if let Some(path) = &self.skip_invalid {
            is_apart_too(path.as_str(), &self.report, &self.files)
        } else {
            true
        }
    }

    /// Whether a run with a state has a file for the reports, and no file of its own has the path of
    /// another one; nor are invalid operations left out, nor is the epoch taken from the index.
    pub fn may_resume(&self) -> bool
        ensures { result ≡ may_resume (option_map string_bytes self.now.state)
            (option_map string_bytes self.now.report)
            (is_some self.now.skip_invalid || is_some self.now.epoch_from)
            (map string_bytes self.now.files.items) }
    {
        let Some(state) = &self.state else {
            return true;
        };
        let is_fixed = self.skip_invalid.is_none() && self.epoch_from.is_none();
        is_fixed
            && self.report.is_some()
            && self.files.len() <= INPUT_LIMIT
            && is_apart_too(state.as_str(), &self.report, &self.files)
    }
}

// Whether a path is given, and this one.
fn is_name_of(path: &Option<String>, name: &str) -> bool
    ensures { result ≡ is_given name.now (option_map string_bytes path.now) }
{
    match path {
        Some(path) => path.as_str() == name,
        None => false,
    }
}

// Whether a path is neither that of another file nor `-`.
fn is_apart(path: &str, files: &[String]) -> bool
    ensures { result ≡ stands_apart (Some path.now) (map string_bytes files.now) }
{
    path != STANDARD_NAME && count_named(files, path) == 0
}

// Whether a path is neither that of another file, nor `-`, nor this one.
fn is_apart_too(path: &str, report: &Option<String>, files: &[String]) -> bool
    ensures { result ≡ leaves_apart (Some path.now) (option_map string_bytes report.now)
        (map string_bytes files.now) }
{
    is_apart(path, files) && !is_name_of(report, path)
}
