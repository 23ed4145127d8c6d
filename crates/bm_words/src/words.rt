// Single words.
ghost use Rattle.std.specs.Prelude.{◌≡◌, ◌≤◌, IfSome};
ghost use Rattle.std.specs.Option.{option_map};
ghost use Rattle.bm_words.specs.Table.{name_of, file_of, number_of_word, seed_of, machine_of, unit_of};
ghost use Rattle.bm_words.specs.Table.{further_script_of, script_of, data_of};
ghost use Rattle.bm_words.specs.Seen.{seen_name, seen_machine, seen_unit, seen_script, seen_data};

use crate::{DataWord, MachineWord, ScriptWord, UnitWord};
use bm_base::count;

const MOST_DIGITS: usize = 20;

/// A name.
#[tactic(auto, unfolding(crate::specs::Table::name_of))]
pub(crate) fn name_word(word: &str) -> Option<&str>
    ensures { option_map seen_name result ≡ name_of word.now }
{
    if word.is_empty() { None } else { Some(word) }
}

/// The name behind `file:`.
#[tactic(auto, unfolding(crate::specs::Table::file_of))]
fn file_word(word: &str) -> Option<&str>
    ensures { option_map seen_name result ≡ file_of word.now }
{
    name_word(word.strip_prefix("file:")?)
}

/// A number of 1 to 20 digits, of at most `most`.
#[tactic(auto, unfolding(crate::specs::Table::number_of_word))]
pub(crate) fn number_word(most: u64, word: &str) -> Option<u64>
    ensures value { result ≡ number_of_word most word.now }
    ensures within { IfSome result (λ value. value ≤ most) }
{
    if word.len() > MOST_DIGITS {
        return None;
    }
    match count(word.as_bytes()) {
        Ok(value) => if value <= most { Some(value) } else { None },
        Err(_) => None,
    }
}

/// A machine.
#[tactic(auto, unfolding(crate::specs::Table::machine_of))]
pub(crate) fn machine_word(word: &str) -> Option<MachineWord<'_>>
    ensures { option_map seen_machine result ≡ machine_of word.now }
{
    if word == "default" {
        return Some(MachineWord::Standard);
    }
    let name = file_word(word)?;
    Some(MachineWord::File { name })
}

/// A barrier unit.
#[tactic(auto, unfolding(crate::specs::Table::unit_of))]
pub(crate) fn unit_word(word: &str) -> Option<UnitWord>
    ensures { option_map seen_unit result ≡ unit_of word.now }
{
    if word == "sbm" {
        return Some(UnitWord::Static);
    }
    if word == "dbm" {
        return Some(UnitWord::Dynamic);
    }
    None
}

/// The number behind `seed:`.
#[tactic(auto, unfolding(crate::specs::Table::seed_of))]
fn seed_word(word: &str) -> Option<u64>
    ensures { result ≡ seed_of word.now }
{
    number_word(u64::MAX, word.strip_prefix("seed:")?)
}

/// A script that is no rule by itself: a seed, or a file.
#[tactic(auto, unfolding(crate::specs::Table::further_script_of))]
fn further_script_word(word: &str) -> Option<ScriptWord<'_>>
    ensures { option_map seen_script result ≡ further_script_of word.now }
{
    if let Some(n) = seed_word(word) {
        return Some(ScriptWord::Seed { n });
    }
    let name = file_word(word)?;
    Some(ScriptWord::File { name })
}

/// A script.
#[tactic(auto, unfolding(crate::specs::Table::script_of))]
pub(crate) fn script_word(word: &str) -> Option<ScriptWord<'_>>
    ensures { option_map seen_script result ≡ script_of word.now }
{
    if word == "least" {
        return Some(ScriptWord::Least);
    }
    if word == "most" {
        return Some(ScriptWord::Most);
    }
    further_script_word(word)
}

/// Data.
#[tactic(auto, unfolding(crate::specs::Table::data_of))]
pub(crate) fn data_word(word: &str) -> Option<DataWord<'_>>
    ensures { option_map seen_data result ≡ data_of word.now }
{
    if word == "none" {
        return Some(DataWord::Declared);
    }
    let name = file_word(word)?;
    Some(DataWord::File { name })
}
