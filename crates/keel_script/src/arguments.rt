// The words behind a command's first, one reader for each kind.
ghost use Rattle.std.specs.Prelude.{◌≡◌, ◌≤◌, IfSome};
ghost use Rattle.keel_script.specs.Reading.{Gives, Shows, decimal_from, text_from, option_name_from, call_from, fault_from, first_by, number_to, end_at, sync_at};
ghost use Rattle.keel_script.specs.Words.{words_of};

use crate::LineError;
use crate::names::{CALLS, DEVICE_FAULTS, call_name, fault_name};
use crate::text::text_of;
use crate::words::next_word;
use keel_base::{Bytes, Call, Fault, OptionName};
use keel_name::read_decimal;
use std::alloc::Global;

/// That there is no word.
pub fn end(line: &[u8]) -> Option<()>
    ensures { Shows (λ x. x) result (end_at (words_of line.now)) }
{
    match next_word(line) {
        Some(_) => None,
        None => Some(()),
    }
}

#[tactic(auto, unfolding(crate::specs::Reading::first_by))]
pub fn number(line: &[u8]) -> Option<(u64, &[u8])>
    ensures { Shows (λ x. (x.0, words_of x.1.now)) result (first_by decimal_from (words_of line.now)) }
{
    let (word, rest) = next_word(line)?;
    let number = decimal_of(word)?;
    Some((number, rest))
}

fn decimal_of(word: &[u8]) -> Option<u64>
    ensures { result ≡ decimal_from word.now }
{
    read_decimal(word)
}

/// A number that is not over this one.
#[tactic(auto, unfolding(crate::specs::Reading::number_to))]
pub fn number_up_to(line: &[u8], most: u64) -> Option<(u64, &[u8])>
    ensures read { Shows (λ x. (x.0, words_of x.1.now)) result (number_to most (words_of line.now)) }
    ensures within { IfSome result (λ x. x.0 ≤ most) }
{
    let (number, rest) = number(line)?;
    if number <= most {
        Some((number, rest))
    } else {
        None
    }
}

#[tactic(auto, unfolding(crate::specs::Reading::first_by))]
pub fn text(alloc: Global, line: &[u8]) -> Result<(Bytes, &[u8]), LineError>
    ensures { Gives (λ x. (x.0, words_of x.1.now)) result (first_by text_from (words_of line.now)) }
{
    match next_word(line) {
        Some((word, rest)) => Ok((text_of(alloc, word)?, rest)),
        None => Err(LineError::NotACommand),
    }
}

#[tactic(auto, unfolding(crate::specs::Reading::first_by))]
pub fn option_name(line: &[u8]) -> Option<(OptionName, &[u8])>
    ensures { Shows (λ x. (x.0, words_of x.1.now)) result (first_by option_name_from (words_of line.now)) }
{
    let (word, rest) = next_word(line)?;
    let name = find_option(word)?;
    Some((name, rest))
}

fn find_option(word: &[u8]) -> Option<OptionName>
    ensures { result ≡ option_name_from word.now }
{
    OptionName::ALL
        .iter()
        .copied()
        .find(|name| name.name() == word)
}

#[tactic(auto, unfolding(crate::specs::Reading::first_by))]
pub fn call(line: &[u8]) -> Option<(Call, &[u8])>
    ensures { Shows (λ x. (x.0, words_of x.1.now)) result (first_by call_from (words_of line.now)) }
{
    let (word, rest) = next_word(line)?;
    let call = find_call(word)?;
    Some((call, rest))
}

fn find_call(word: &[u8]) -> Option<Call>
    ensures { result ≡ call_from word.now }
{
    CALLS.iter().copied().find(|call| call_name(*call) == word)
}

/// A fault that a device can be told to have.
#[tactic(auto, unfolding(crate::specs::Reading::first_by))]
pub fn device_fault(line: &[u8]) -> Option<(Fault, &[u8])>
    ensures { Shows (λ x. (x.0, words_of x.1.now)) result (first_by fault_from (words_of line.now)) }
{
    let (word, rest) = next_word(line)?;
    let fault = find_device_fault(word)?;
    Some((fault, rest))
}

fn find_device_fault(word: &[u8]) -> Option<Fault>
    ensures { result ≡ fault_from word.now }
{
    DEVICE_FAULTS
        .iter()
        .copied()
        .find(|fault| fault_name(*fault) == word)
}

/// Whether the last word is `sync`; there is no other.
#[tactic(auto, unfolding(crate::specs::Reading::sync_at))]
pub fn sync(line: &[u8]) -> Option<bool>
    ensures { Shows (λ sync. sync) result (sync_at (words_of line.now)) }
{
    match next_word(line) {
        None => Some(false),
        Some((word, rest)) => {
            if word == b"sync".as_slice() {
                end(rest)?;
                Some(true)
            } else {
                None
            }
        }
    }
}
