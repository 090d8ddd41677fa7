ghost use Rattle.std.specs.Prelude.{◌≡◌, ◌≢◌, ◌≤◌, Err, IfErr, IfOk, length};
ghost use Rattle.std.specs.List.{All};
ghost use Rattle.clap.specs.Values.{kind_of};
ghost use Rattle.given_words.specs.Plain.{IsPlain, texts, words_given};
ghost use Rattle.flat_words.specs.FlatCommand.{HasPlaces};

use clap::error::ErrorKind;
use clap::{Arg, ArgMatches, Command, Error};
use given_words::{Given, GivenFault};
use std::alloc::Global;

/// One flat command of up to three positional texts, without flags.
fn matches_of<'a>(alloc: Global, words: &'a [&'a str]) -> Result<ArgMatches<'a>, Error>
    requires { All IsPlain (texts words.now) }
    ensures found { IfOk result (HasPlaces (texts words.now)) }
    ensures few { IfErr result (λ e. length (texts words.now) ≤ 3 → kind_of e ≡ ErrorKind.OutOfMemory) }
{
    let command = Command::new(alloc, "locus")
        .no_binary_name(true)
        .disable_help_flag(true)
        .arg(Arg::new(alloc, "command"))?
        .arg(Arg::new(alloc, "number"))?
        .arg(Arg::new(alloc, "events"))?;
    command.try_get_matches_from(words)
}

/// The words that clap finds. `Count` only where they are neither one nor three.
pub fn given_by<'a>(alloc: Global, words: &'a [&'a str]) -> Result<Given<'a>, GivenFault>
    requires { All IsPlain (texts words.now) }
    ensures given { IfOk result (λ given. words_given given ≡ texts words.now) }
    ensures count { result ≡ Err GivenFault.Count → (length (texts words.now) ≢ 1) × (length (texts words.now) ≢ 3) }
{
    let matches = match matches_of(alloc, words) {
        Ok(matches) => matches,
        Err(error) => return Err(fault_of(&error)),
    };
    let command = matches.get_str("command");
    let number = matches.get_str("number");
    let events = matches.get_str("events");
    match (command, number, events) {
        (Some(word), None, None) => Ok(Given::One(word)),
        (Some(word), Some(number), Some(events)) => Ok(Given::Three(word, number, events)),
        _ => Err(GivenFault::Count),
    }
}

fn fault_of(error: &Error) -> GivenFault
    ensures { result ≡ GivenFault.Count → kind_of error.now ≢ ErrorKind.OutOfMemory }
{
    match error.kind() {
        ErrorKind::OutOfMemory => GivenFault::NoMemory,
        _ => GivenFault::Count,
    }
}
