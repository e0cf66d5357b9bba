//! The options of a command: pairs of a name and a value, in any order.
ghost use Rattle.std.specs.Prelude.{◌≡◌, map, option_copied, string_bytes};
ghost use Rattle.hb_words.specs.Options as spec;

/// Whether the words are pairs of a name and a value, each name at most once.
pub(crate) fn are_options(options: &[String]) -> bool
    ensures { result ≡ spec.are_options (map string_bytes options.now) }
{
    match options {
        [] => true,
        [option, _, rest @ ..] => is_new(option.as_str(), rest) && are_options(rest),
        _ => false,
    }
}

/// Whether an option may have this name, and none of the later ones has it.
fn is_new(name: &str, later: &[String]) -> bool
    ensures { result ≡ spec.is_new name.now (map string_bytes later.now) }
{
    is_option(name) && value(later, name).is_none()
}

/// Whether an option may have this name.
fn is_option(name: &str) -> bool
    ensures { result ≡ spec.is_option name.now }
{
    matches!(
        name,
        "--capacity" | "--slot" | "--node" | "--last" | "--first" | "--output"
    )
}

/// The value of the option of this name, where it stands.
pub(crate) fn value<'a>(options: &'a [String], name: &str) -> Option<&'a str>
    ensures { option_copied result ≡ spec.value name.now (map string_bytes options.now) }
{
    let mut rest = options;
    while let [option, text, later @ ..] = rest {
        if option.as_str() == name {
            return Some(text.as_str());
        }
        rest = later;
    }
    None
}
