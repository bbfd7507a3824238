//! The query of a request.
ghost use Rattle.std.specs.Prelude.{◌≡◌, ◌<◌, [], ◌∷◌, length, MatchOption, option_map};
ghost use Rattle.relay_front.specs.Parts.{parts_at};
ghost use Rattle.relay_front.specs.Queries.{is_ignored, meaning_of, name_of};

// Whether a parameter with this name does not change what a write means.
fn is_ignored(name: &str) -> bool
    ensures { result ≡ is_ignored name.now }
{
    match name {
        "" | "timeout" | "refresh" | "pretty" | "human" | "error_trace" | "filter_path" => true,
        "wait_for_active_shards" | "master_timeout" => true,
        _ => name.starts_with("_source"),
    }
}

fn name_of(parameter: &str) -> &str
    ensures { result.now ≡ name_of parameter.now }
{
    match parameter.split_once('=') {
        Some(cut) => cut.0,
        None => parameter,
    }
}

// The first parameter, and those after it.
fn cut(query: &str) -> Option<(&str, &str)>
    ensures parts { MatchOption result (parts_at 38 query.now ≡ query.now ∷ [])
        (λ cut. parts_at 38 query.now ≡ cut.0.now ∷ parts_at 38 cut.1.now) }
    ensures shorter { MatchOption result (Unit {0}) (λ cut. length cut.1.now < length query.now) }
{
    query.split_once('&')
}

/// The name of the first parameter that may change what a write means. `None`: there is none.
pub fn first_meaning(query: &str) -> Option<&str>
    ensures { option_map (λ t. t.now) result ≡ meaning_of query.now }
{
    let mut rest = query;
    'parameters: while let Some((parameter, more)) = cut(rest) {
        let name = name_of(parameter);
        if !is_ignored(name) {
            return Some(name);
        }
        rest = more;
    }
    let name = name_of(rest);
    if is_ignored(name) { None } else { Some(name) }
}
