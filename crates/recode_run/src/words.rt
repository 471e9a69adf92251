// The words that the program is called with.
ghost use Rattle.std.specs.Prelude.{◌≡◌, ◌<◌, IfOk, IfSome, Some, codes, map, string_bytes, true, false};
ghost use Rattle.std.specs.Char.{is_ascii_digit};
ghost use Rattle.std.specs.List.{list_all};
ghost use Rattle.std.specs.Option.{option_map};
ghost use Rattle.clap.specs.Simple.{app_of};
ghost use Rattle.clap.specs.Walk.{rule_of};
ghost use Rattle.clap.specs.Matches.{found_of, first_value};
ghost use Rattle.clap.specs.Values.{kind_of};
ghost use Rattle.recode_run.specs.Words.{layer_of, idc_of, number_of, range_of, option_rule, recode_app, request_of, request_from, Reads, words_of, IsRefusal};

use clap::error::ErrorKind;
use clap::{Arg, ArgMatches, Command};
use h264_types::Layer;
use std::alloc::{AllocError, Global};
use thiserror::Error;

/// What the words ask for.
#[derive(Clone, Copy)]
pub struct Asked<'a> {
    /// The wanted layer.
    pub to: Layer,

    /// The text that is to be the table of initial pairs.
    pub table: &'a str,

    /// What is tried as cabac_init_idc (7.4.3), from 0 to 2.
    pub idc: u8,

    /// The first and the last IDR period to be recoded, where the run is partial.
    pub range: Option<(u32, u32)>,
}

/// Why words weren't read.
#[derive(Clone, Copy, Debug, PartialEq, Eq, Error)]
pub enum WordsFault {
    /// They ask for nothing.
    #[error("bad words")]
    Bad,

    /// There was no memory for reading them.
    #[error("out of memory")]
    Memory,
}

/// What the words ask for.
pub fn read_words(alloc: Global, words: &[String]) -> Result<Asked<'_>, WordsFault>
    ensures value { Reads (words_of (map (λ word. string_bytes word) words.now)) result }
    ensures tried { IfOk result (λ asked. asked.idc < 3) }
{
    match words {
        [command, ..] if command.as_str() == "recode" => {}
        _ => return Err(WordsFault::Bad),
    }
    let Ok(command) = recode_command(alloc) else {
        return Err(WordsFault::Memory);
    };
    match command.try_get_matches_from(words) {
        Ok(matches) => asked_by(&matches).ok_or(WordsFault::Bad),
        Err(error) => Err(refusal(&error)),
    }
}

// The command and its options, which take one value each.
fn recode_command<'a>(alloc: Global) -> Result<Command<'a>, AllocError>
    ensures { IfOk result (λ command. app_of command ≡ recode_app) }
{
    Command::new(alloc, "recode")
        .arg(option(alloc, "to").required(true))?
        .arg(option(alloc, "table").required(true))?
        .arg(option(alloc, "init"))?
        .arg(option(alloc, "first"))?
        .arg(option(alloc, "last"))
}

fn option<'a>(alloc: Global, name: &'a str) -> Arg<'a>
    ensures rule { rule_of result ≡ option_rule name.entry.now }
    ensures local { result.global ≡ false }
{
    Arg::new(alloc, name).long(name)
}

// Why a parse refused the words.
fn refusal(error: &clap::Error) -> WordsFault
    ensures { IsRefusal (kind_of error.now) result }
{
    match error.kind() {
        ErrorKind::OutOfMemory => WordsFault::Memory,
        _ => WordsFault::Bad,
    }
}

// What the values of the options ask for.
fn asked_by<'a>(matches: &ArgMatches<'a>) -> Option<Asked<'a>>
    ensures value { let f = found_of matches.now in option_map request_of result ≡ request_from (first_value f (codes "to")) (first_value f (codes "table")) (first_value f (codes "init")) (first_value f (codes "first")) (first_value f (codes "last")) }
    ensures tried { IfSome result (λ asked. asked.idc < 3) }
{
    Some(Asked {
        to: layer_named(matches.get_str("to")?)?,
        table: matches.get_str("table")?,
        idc: idc_named(matches.get_str("init"))?,
        range: range_named(matches.get_str("first"), matches.get_str("last"))?,
    })
}

fn layer_named(name: &str) -> Option<Layer>
    ensures { result ≡ layer_of name.now }
{
    match name {
        "cavlc" => Some(Layer::Cavlc),
        "cabac" => Some(Layer::Cabac),
        _ => None,
    }
}

fn idc_named(name: Option<&str>) -> Option<u8>
    ensures value { result ≡ idc_of (option_map (λ text. text.now) name.entry) }
    ensures tried { IfSome result (λ idc. idc < 3) }
{
    match name {
        None | Some("0") => Some(0),
        Some("1") => Some(1),
        Some("2") => Some(2),
        Some(_) => None,
    }
}

// The range between two numbers, or none where neither is there.
fn range_named(first: Option<&str>, last: Option<&str>) -> Option<Option<(u32, u32)>>
    ensures { result ≡ range_of (option_map (λ text. text.now) first.entry) (option_map (λ text. text.now) last.entry) }
{
    match (first, last) {
        (None, None) => Some(None),
        (Some(first), Some(last)) => {
            let first = number(first)?;
            let last = number(last)?;
            if first <= last {
                Some(Some((first, last)))
            } else {
                None
            }
        }
        _ => None,
    }
}

// The number below 2^32 that one to ten decimal digits write.
fn number(text: &str) -> Option<u32>
    ensures { result ≡ number_of text.now }
{
    if text.is_empty() || text.len() > 10 || !are_digits(text.as_bytes()) {
        return None;
    }
    text.parse::<u32>().ok()
}

fn are_digits(text: &[u8]) -> bool
    ensures { result ≡ list_all is_ascii_digit text.now }
{
    text.iter().all(|byte| byte.is_ascii_digit())
}
