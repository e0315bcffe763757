//! The form of the words.

ghost use Rattle.std.specs.Prelude.{◌≡◌, None, map, option_map, string_bytes};
ghost use Rattle.program_words.specs.ProgramWords.{parted, value_once, with_option, begun, with_word, values_in, whole_values, values_of};
ghost use Rattle.program_words.specs.Views.{values_by, begun_by};

/// The text of each option's value, where it has one.
#[derive(Clone, Copy)]
pub(crate) struct OptionValues<'a> {
    pub cp: Option<&'a str>,
    pub workers: Option<&'a str>,
    pub sample: Option<&'a str>,
}

/// The values that the words so far gave, and the option among them that waits for its value.
#[derive(Clone, Copy)]
struct Begun<'a> {
    name: Option<&'a str>,
    values: OptionValues<'a>,
}

fn value_once<'a>(before: Option<&str>, value: &'a str) -> Option<&'a str>
    ensures { option_map (λ s. s.now) result ≡ value_once (option_map (λ s. s.now) before.entry) value.now }
{
    if before.is_some() {
        return None;
    }
    match value.as_bytes() {
        [] | [b'-', ..] => None,
        _ => Some(value),
    }
}

// The option of this name and its value.
fn with_option<'a>(name: &str, value: &'a str, values: OptionValues<'a>) -> Option<OptionValues<'a>>
    ensures { option_map values_by result ≡ with_option name.now value.now (values_by values.entry) }
{
    if name == "--cp" {
        let cp = Some(value_once(values.cp, value)?);
        Some(OptionValues { cp, ..values })
    } else if name == "--workers" {
        let workers = Some(value_once(values.workers, value)?);
        Some(OptionValues { workers, ..values })
    } else if name == "--sample" {
        let sample = Some(value_once(values.sample, value)?);
        Some(OptionValues { sample, ..values })
    } else {
        None
    }
}

// The two parts of a word round its first `=`.
fn parts_of(word: &str) -> Option<(&str, &str)>
    ensures { option_map (λ p. (p.0.now, p.1.now)) result ≡ parted word.now }
{
    word.split_once('=')
}

fn after_value<'a>(values: Option<OptionValues<'a>>) -> Option<Begun<'a>>
    ensures { option_map begun_by result ≡ option_map (λ v. (None, values_by v)) values.entry }
{
    match values {
        Some(values) => Some(Begun { name: None, values }),
        None => None,
    }
}

fn begin_option<'a>(word: &'a str, values: OptionValues<'a>) -> Option<Begun<'a>>
    ensures { option_map begun_by result ≡ begun word.now (values_by values.entry) (parted word.now) }
{
    match parts_of(word) {
        Some((name, value)) => after_value(with_option(name, value, values)),
        None => Some(Begun {
            name: Some(word),
            values,
        }),
    }
}

fn with_word<'a>(word: &'a str, state: Begun<'a>) -> Option<Begun<'a>>
    ensures { option_map begun_by result ≡ with_word word.now (begun_by state.entry) }
{
    match state.name {
        Some(name) => after_value(with_option(name, word, state.values)),
        None => begin_option(word, state.values),
    }
}

fn whole_values<'a>(state: Begun<'a>) -> Option<OptionValues<'a>>
    ensures { option_map values_by result ≡ whole_values (begun_by state.entry) }
{
    match state.name {
        Some(_) => None,
        None => Some(state.values),
    }
}

/// The values that the words give the options, where they have the form.
#[tactic(auto, unfolding(crate::specs::ProgramWords::values_of))]
pub(crate) fn values_of(words: &[String]) -> Option<OptionValues<'_>>
    ensures { option_map values_by result ≡ values_of (map string_bytes words.now) }
{
    let mut state = Begun {
        name: None,
        values: OptionValues {
            cp: None,
            workers: None,
            sample: None,
        },
    };
    for word in words {
        match with_word(word.as_str(), state) {
            Some(next) => state = next,
            None => return None,
        }
    }
    whole_values(state)
}
