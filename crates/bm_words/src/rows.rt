// The rows.
ghost use Rattle.std.specs.Prelude.{◌≡◌, ◌≤◌, map, IfSome};
ghost use Rattle.std.specs.Option.{option_map};
ghost use Rattle.std.specs.String.{string_bytes};
ghost use Rattle.bm_words.specs.Table.{eval_of, run_words_of, go_of, compile_of, run_of, trace_of, show_of, check_of, soak_of, request_of};
ghost use Rattle.bm_words.specs.Seen.{seen_run, seen_command};
ghost use Rattle.bm_words.specs.Ranges.{IsInRange};

use crate::words::{data_word, machine_word, name_word, number_word, script_word, unit_word};
use crate::{Command, RunWords};
use bm_base::{MOST_BUDGET, MOST_STATEMENTS, MOST_TURNS};

/// `PROG DATA TURNS`
fn eval_row(words: &[String]) -> Option<Command<'_>>
    ensures row { option_map seen_command result ≡ eval_of (map string_bytes words.now) }
    ensures range { IfSome result (λ command. IsInRange (seen_command command)) }
{
    let [program, given, turns] = words else {
        return None;
    };
    let program = name_word(program.as_str())?;
    let given = data_word(given.as_str())?;
    let turns = number_word(MOST_TURNS, turns.as_str())?;
    Some(Command::Eval {
        program,
        given,
        turns,
    })
}

/// `UNIT SCRIPT DATA BUDGET`
#[tactic(auto, unfolding(crate::specs::Table::run_words_of))]
fn run_words(words: &[String]) -> Option<RunWords<'_>>
    ensures row { option_map seen_run result ≡ run_words_of (map string_bytes words.now) }
    ensures range { IfSome result (λ run. run.budget ≤ MOST_BUDGET) }
{
    let [unit, script, given, budget] = words else {
        return None;
    };
    let unit = unit_word(unit.as_str())?;
    let script = script_word(script.as_str())?;
    let given = data_word(given.as_str())?;
    let budget = number_word(MOST_BUDGET, budget.as_str())?;
    Some(RunWords {
        unit,
        script,
        given,
        budget,
    })
}

/// `PROG MACH UNIT SCRIPT DATA BUDGET`
fn go_row(words: &[String]) -> Option<Command<'_>>
    ensures row { option_map seen_command result ≡ go_of (map string_bytes words.now) }
    ensures range { IfSome result (λ command. IsInRange (seen_command command)) }
{
    let [program, machine, rest @ ..] = words else {
        return None;
    };
    let program = name_word(program.as_str())?;
    let machine = machine_word(machine.as_str())?;
    let run = run_words(rest)?;
    Some(Command::Go {
        program,
        machine,
        run,
    })
}

/// `PROG MACH OUT`
fn compile_row(words: &[String]) -> Option<Command<'_>>
    ensures row { option_map seen_command result ≡ compile_of (map string_bytes words.now) }
    ensures range { IfSome result (λ command. IsInRange (seen_command command)) }
{
    let [program, machine, out] = words else {
        return None;
    };
    let program = name_word(program.as_str())?;
    let machine = machine_word(machine.as_str())?;
    let out = name_word(out.as_str())?;
    Some(Command::Compile {
        program,
        machine,
        out,
    })
}

/// `PROG MACH`
fn show_row(words: &[String]) -> Option<Command<'_>>
    ensures row { option_map seen_command result ≡ show_of (map string_bytes words.now) }
    ensures range { IfSome result (λ command. IsInRange (seen_command command)) }
{
    let [program, machine] = words else {
        return None;
    };
    let program = name_word(program.as_str())?;
    let machine = machine_word(machine.as_str())?;
    Some(Command::Show { program, machine })
}

/// `IMAGE UNIT SCRIPT DATA BUDGET`
fn run_row(words: &[String]) -> Option<Command<'_>>
    ensures row { option_map seen_command result ≡ run_of (map string_bytes words.now) }
    ensures range { IfSome result (λ command. IsInRange (seen_command command)) }
{
    let [image, rest @ ..] = words else {
        return None;
    };
    let image = name_word(image.as_str())?;
    let run = run_words(rest)?;
    Some(Command::Run { image, run })
}

/// `IMAGE UNIT SCRIPT DATA BUDGET`
fn trace_row(words: &[String]) -> Option<Command<'_>>
    ensures row { option_map seen_command result ≡ trace_of (map string_bytes words.now) }
    ensures range { IfSome result (λ command. IsInRange (seen_command command)) }
{
    let [image, rest @ ..] = words else {
        return None;
    };
    let image = name_word(image.as_str())?;
    let run = run_words(rest)?;
    Some(Command::Trace { image, run })
}

/// `IMAGE`
fn check_row(words: &[String]) -> Option<Command<'_>>
    ensures row { option_map seen_command result ≡ check_of (map string_bytes words.now) }
    ensures range { IfSome result (λ command. IsInRange (seen_command command)) }
{
    let [image] = words else {
        return None;
    };
    let image = name_word(image.as_str())?;
    Some(Command::Check { image })
}

/// `SEED STATEMENTS`
fn soak_row(words: &[String]) -> Option<Command<'_>>
    ensures row { option_map seen_command result ≡ soak_of (map string_bytes words.now) }
    ensures range { IfSome result (λ command. IsInRange (seen_command command)) }
{
    let [seed, statements] = words else {
        return None;
    };
    let seed = number_word(u64::MAX, seed.as_str())?;
    let statements = number_word(u64::from(MOST_STATEMENTS), statements.as_str())?;
    Some(Command::Soak {
        seed,
        statements: statements as u32,
    })
}

/// What the words ask for, none where they match no row of the table.
pub fn match_words(words: &[String]) -> Option<Command<'_>>
    ensures row { option_map seen_command result ≡ request_of (map string_bytes words.now) }
    ensures range { IfSome result (λ command. IsInRange (seen_command command)) }
{
    let [verb, rest @ ..] = words else {
        return None;
    };
    match verb.as_str() {
        "eval" => eval_row(rest),
        "go" => go_row(rest),
        "compile" => compile_row(rest),
        "show" => show_row(rest),
        "run" => run_row(rest),
        "trace" => trace_row(rest),
        "check" => check_row(rest),
        "soak" => soak_row(rest),
        _ => None,
    }
}
