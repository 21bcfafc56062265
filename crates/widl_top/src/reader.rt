//! Reading the arguments of a command line.

ghost use Rattle.std.specs.Prelude.{◌≡◌, ℕ, ◌<◌, ◌≤◌, IfSome, IfNone, MatchOption, length};
ghost use Rattle.widl_top.specs.Requests.{request_of, option_of, budget_of, IsBudget, IsWithin, HasFiles, HasNames};
ghost use Rattle.widl_top.specs.declared.request.Request.TheVariants.{OverFiles};

use crate::Words;
use crate::request::{Command, Request};
use itoa::Buffer;
use widl_text::limits::{MOST_FILES, MOST_UNITS};

/// What the arguments ask for, if they have one of the forms.
#[tactic(auto, unfolding(crate::specs::Requests::request_of))]
pub fn read_request(words: &Words) -> Option<Request>
    ensures request { result ≡ request_of words.now }
    ensures files { IfSome result (λ request. HasFiles request (length words.now)) }
{
    match words.len() {
        0 => None,
        1 => read_option(words.at(0).as_str()),
        _ => read_command(words),
    }
}

/// What the arguments ask for that name files.
#[tactic(auto, unfolding(crate::specs::Requests::request_of))]
fn read_command(words: &Words) -> Option<Request>
    requires { 1 < length words.now }
    ensures request { result ≡ request_of words.now }
    ensures files { IfSome result (λ request. HasFiles request (length words.now)) }
{
    let command = words.at(0).as_str();
    if command == "check" {
        over_files(words, Command::Check)
    } else if command == "sets" {
        over_files(words, Command::Sets)
    } else if command == "run" {
        let budget = read_budget(words.at(1).as_str())?;
        over_files(words, Command::Run(budget))
    } else {
        None
    }
}

/// A command over the files that the arguments name, where they are as many as it can have.
fn over_files(words: &Words, command: Command) -> Option<Request>
    ensures request { MatchOption result (HasNames command (length words.now) → ⊥) (λ request. (request ≡ OverFiles command) × HasNames command (length words.now)) }
{
    let fewest = command.first_fragment();
    if words.len() > fewest && words.len() <= fewest + MOST_FILES {
        Some(Request::OverFiles(command))
    } else {
        None
    }
}

/// What a single argument asks for.
fn read_option(word: &str) -> Option<Request>
    ensures request { result ≡ option_of word.now }
    ensures files { IfSome result (λ request. (count : ℕ) → HasFiles request count) }
{
    if word == "--help" {
        Some(Request::Help)
    } else if word == "--version" {
        Some(Request::Version)
    } else {
        None
    }
}

/// The budget that an argument is the decimal text of, without a sign or a leading zero.
fn read_budget(word: &str) -> Option<u64>
    ensures some { IfSome result (IsBudget word.now) }
    ensures none { IfNone result ((units : ℕ) → IsBudget word.now units → ⊥) }
    ensures value { result ≡ budget_of word.now }
{
    match word.parse::<u64>() {
        Ok(units) => if_budget(word, units),
        Err(_) => None,
    }
}

/// The number, if the argument is its text as a budget.
fn if_budget(word: &str, units: u64) -> Option<u64>
    ensures some { IfSome result (λ budget. (budget ≡ units) × IsBudget word.now units) }
    ensures none { IfNone result (IsBudget word.now units → ⊥) }
{
    let mut buffer = Buffer::new();
    if buffer.format(units) == word && units > 0 && units <= MOST_UNITS {
        Some(units)
    } else {
        None
    }
}
