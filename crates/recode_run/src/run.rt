//! The top call: from a source of bytes to a sink, with a report of how it ended.
ghost use Rattle.std.specs.Prelude.{◌≡◌, ◌+◌, ◌^◌, ◌<◌, ◌≤◌, ◌∷◌, ◌++◌, [], ℕ, List, length, map, min, take, string_bytes, OnOk, OnErr, IfErr};
ghost use Rattle.std.specs.Io.KnownBytes.{Appends};
ghost use Rattle.unit_io.specs.Faults.{Rose, HasCause, HasSinkCause};
ghost use Rattle.h264_types.specs.Units.{seen};
ghost use Rattle.recode_run.specs.declared.account.Account.{Account};
ghost use Rattle.recode_run.specs.Account.{account_of};
ghost use Rattle.recode_run.specs.Words.{request_of, words_of};
ghost use Rattle.stream_recoder.specs.Written.{Written, forms};
ghost use Rattle.stream_recoder.specs.Recoder.{waiting, HasRecoded, options_of};
ghost use Rattle.recode_run.specs.Pieces.{IsReady, PieceDone, PieceEnds, Notes, ReadsSome, status_of_fault, status_of_stop};
ghost use Rattle.recode_run.specs.Headline.{IsHeadline};
ghost use Rattle.recode_run.specs.Run.{run_for, RunEnds, Ran, RunAnswers, IsTold, IsExact, IsPrompt};
ghost use Rattle.recode_run.specs.Report.{TakesPart};

use crate::account::Account;
use crate::report::write_report;
use crate::status::Status;
use crate::words::{Asked, WordsFault, read_words};
use h264_types::Stopped;
use init_table::{BadTable, InitTable};
use slice_rewrite::{FixedInit, InitPick, Plan};
use std::alloc::Global;
use stream_recoder::Recoder;
use stream_taps::Tap;
use unit_io::{Failed, Sink, SinkFault, Source, put_all};

/// The most bytes that a run takes from its source.
const MOST_BYTES: u64 = 1 << 40;

/// The most bytes that one read asks for.
const PIECE: usize = 65_536;

/// Runs the program with these words, without the name of the program: reads the source to its end, and writes the
/// stream in the wanted form to `out` and a line on how the run ended to `report`.
///
/// With words that ask for nothing, or a text that is no table's, nothing is read, and `out` is left alone.
/// Each unit is written as soon as its end was read. A source of more than 2^40 bytes is too much.
pub fn run<S: Source, K: Sink, E: Sink>(
    alloc: Global,
    words: &[String],
    src: &mut S,
    out: &mut K,
    report: &mut E,
    taps: &mut Vec<Box<dyn Tap>>,
) -> Status
    ensures headline { IsHeadline (words_of (map (λ word. string_bytes word) words.now)) (2 ^ 40) (S.left src.old) (S.left src.new) (K.held out.old) (K.held out.new) result }
    ensures ends { RunAnswers (words_of (map (λ word. string_bytes word) words.now)) (2 ^ 40) (S.left src.old) (S.left src.new) (K.held out.old) (K.held out.new) (E.held report.old) (E.held report.new) result }
    ensures told { IsTold (words_of (map (λ word. string_bytes word) words.now)) (2 ^ 40) (S.left src.old) (S.left src.new) (K.held out.old) (K.held out.new) result }
    ensures exact { IsExact (words_of (map (λ word. string_bytes word) words.now)) (2 ^ 40) (S.left src.old) result }
    ensures prompt { IsPrompt (words_of (map (λ word. string_bytes word) words.now)) (S.left src.old) (S.left src.new) (K.held out.old) (K.held out.new) }
    ensures read { result ≡ Status.ReadFault → Rose (S.faults src.old) (S.faults src.new) }
    ensures write { result ≡ Status.WriteFault → Rose (K.faults out.old) (K.faults out.new) }
    ensures report { result ≡ Status.ReportFault → Rose (E.faults report.old) (E.faults report.new) }
    ensures taps { taps.new ≡ taps.old }
{
    run_within(alloc, words, src, out, report, taps, MOST_BYTES)
}

/// The same for a source of at most `bound` bytes.
pub fn run_within<S: Source, K: Sink, E: Sink>(
    alloc: Global,
    words: &[String],
    src: &mut S,
    out: &mut K,
    report: &mut E,
    taps: &mut Vec<Box<dyn Tap>>,
    bound: u64,
) -> Status
    requires { bound ≤ 2 ^ 40 }
    ensures headline { IsHeadline (words_of (map (λ word. string_bytes word) words.now)) bound (S.left src.old) (S.left src.new) (K.held out.old) (K.held out.new) result }
    ensures ends { RunAnswers (words_of (map (λ word. string_bytes word) words.now)) bound (S.left src.old) (S.left src.new) (K.held out.old) (K.held out.new) (E.held report.old) (E.held report.new) result }
    ensures told { IsTold (words_of (map (λ word. string_bytes word) words.now)) bound (S.left src.old) (S.left src.new) (K.held out.old) (K.held out.new) result }
    ensures exact { IsExact (words_of (map (λ word. string_bytes word) words.now)) bound (S.left src.old) result }
    ensures prompt { IsPrompt (words_of (map (λ word. string_bytes word) words.now)) (S.left src.old) (S.left src.new) (K.held out.old) (K.held out.new) }
    ensures read { result ≡ Status.ReadFault → Rose (S.faults src.old) (S.faults src.new) }
    ensures write { result ≡ Status.WriteFault → Rose (K.faults out.old) (K.faults out.new) }
    ensures report { result ≡ Status.ReportFault → Rose (E.faults report.old) (E.faults report.new) }
    ensures taps { taps.new ≡ taps.old }
{
    // No unit is noted to the taps yet.
    let _ = taps;
    let mut account = Account::new();
    let status = recode_asked(alloc, words, src, out, bound, &mut account);
    write_report(alloc, status, &account, report)
}

// Recodes a source as the words ask, if they ask for a run and their text is a table's. It has to be one in every run, for a
// stream without a slice in CABAC too: whether a call is right doesn't rest on its input.
fn recode_asked<S: Source, K: Sink>(
    alloc: Global,
    words: &[String],
    src: &mut S,
    out: &mut K,
    bound: u64,
    account: &mut Account,
) -> Status
    requires bounded { bound ≤ 2 ^ 40 }
    requires none { account.old ≡ account_of 0 [] }
    ensures ran { Ran (words_of (map (λ word. string_bytes word) words.now)) bound (S.left src.old) (S.left src.new) (K.held out.old) (K.held out.new) account.new result }
    ensures read { result ≡ Status.ReadFault → Rose (S.faults src.old) (S.faults src.new) }
    ensures write { result ≡ Status.WriteFault → Rose (K.faults out.old) (K.faults out.new) }
{
    let asked = match read_words(alloc, words) {
        Ok(asked) => asked,
        Err(WordsFault::Bad) => return Status::BadWords,
        Err(WordsFault::Memory) => return Status::Memory,
    };
    match InitTable::of(asked.table) {
        Ok(init) => recode(alloc, asked, init, src, out, bound, account),
        Err(BadTable { at }) => Status::BadTable { at },
    }
}

// Recodes a source to a sink as it is asked, and flushes the sink.
fn recode<S: Source, K: Sink>(
    alloc: Global,
    asked: Asked<'_>,
    init: InitTable,
    src: &mut S,
    out: &mut K,
    bound: u64,
    account: &mut Account,
) -> Status
    requires tried { asked.idc < 3 }
    requires bounded { bound ≤ 2 ^ 40 }
    requires none { account.old ≡ account_of 0 [] }
    ensures ends { RunEnds (run_for (request_of asked.entry) init) bound (S.left src.old) (S.left src.new) (K.held out.old) (K.held out.new) account.new result }
    ensures read { result ≡ Status.ReadFault → Rose (S.faults src.old) (S.faults src.new) }
    ensures write { result ≡ Status.WriteFault → Rose (K.faults out.old) (K.faults out.new) }
{
    let plan = Plan {
        to: asked.to,
        range: asked.range,
    };
    let Ok(mut recoder) = Recoder::new(alloc, plan, init, FixedInit(asked.idc)) else {
        return Status::Memory;
    };
    let status = recode_all(&mut recoder, src, out, bound, account);
    match out.flush() {
        Ok(()) => status,
        Err(fault) => status_of(fault),
    }
}

// Reads, recodes and writes until something ends it.
fn recode_all<P: InitPick, S: Source, K: Sink>(
    recoder: &mut Recoder<P>,
    src: &mut S,
    out: &mut K,
    bound: u64,
    account: &mut Account,
) -> Status
    requires ready { ((first : P) × HasRecoded P.tried P.step first recoder.old [] []) × (waiting recoder.old ≡ []) }
    requires bounded { bound ≤ 2 ^ 40 }
    requires none { account.old ≡ account_of 0 [] }
    ensures ends { RunEnds (options_of P.tried recoder.old) bound (S.left src.old) (S.left src.new) (K.held out.old) (K.held out.new) account.new result }
    ensures read { result ≡ Status.ReadFault → Rose (S.faults src.old) (S.faults src.new) }
    ensures write { result ≡ Status.WriteFault → Rose (K.faults out.old) (K.faults out.new) }
    ensures later { K.faults out.old ≤ K.faults out.new }
{
    let mut buf = [0u8; PIECE];
    let mut taken: u64 = 0;
    'reading: loop {
        let room = room_for(bound - taken);
        let count = match read_some(src, &mut buf, room) {
            Err(_) => return Status::ReadFault,
            Ok(count) => count,
        };
        if count == 0 {
            // The end of the input acts as three more zero bytes do.
            let ended = step(recoder, &[0, 0, 0], out, account);
            return match ended {
                Err(status) => status,
                Ok(()) => Status::Ok,
            };
        }
        if taken == bound {
            return Status::TooMuch;
        }
        account.read(count);
        if let Err(status) = step(recoder, &buf[..count], out, account) {
            return status;
        }
        taken += count as u64;
    }
}

// Feeds a piece, and writes the units that end in it.
fn step<P: InitPick, K: Sink>(
    recoder: &mut Recoder<P>,
    piece: &[u8],
    out: &mut K,
    account: &mut Account,
) -> Result<(), Status>
    ensures ok { OnOk result ((o : _) → PieceDone P.tried P.step o recoder.old recoder.new (K.held out.old) (K.held out.new) account.old account.new piece.now) }
    ensures err { IfErr result (λ status. (o : _) (fed : List ℕ) (written : List Written) → IsReady P.tried P.step recoder.old o fed written → PieceEnds o (K.held out.old) (K.held out.new) written (seen (fed ++ piece.now)) status) }
    ensures cause { IfErr result (λ status. status ≡ Status.WriteFault → Rose (K.faults out.old) (K.faults out.new)) }
    ensures later { K.faults out.old ≤ K.faults out.new }
{
    let fed = recoder.feed(piece);
    match put_waiting(recoder, out, account) {
        Err(fault) => Err(status_of(fault)),
        Ok(()) => match fed {
            Err(stopped) => Err(ended_by(stopped)),
            Ok(()) => Ok(()),
        },
    }
}

// Writes all that waits, and counts it.
fn put_waiting<P: InitPick, K: Sink>(
    recoder: &mut Recoder<P>,
    out: &mut K,
    account: &mut Account,
) -> Result<(), SinkFault>
    ensures ok { OnOk result (Appends (K.held out.old) (K.held out.new) (forms (waiting recoder.old)) × (waiting recoder.new ≡ []) × Notes account.old account.new (waiting recoder.old)) }
    ensures recodes { OnOk result ((first : P) (fed : List ℕ) (drained : List Written) → HasRecoded P.tried P.step first recoder.old fed drained → HasRecoded P.tried P.step first recoder.new fed (drained ++ waiting recoder.old)) }
    ensures err { OnErr result (TakesPart (K.held out.old) (K.held out.new) (forms (waiting recoder.old))) }
    ensures cause { HasSinkCause (K.faults out.old) (K.faults out.new) result }
    ensures options { options_of P.tried recoder.new ≡ options_of P.tried recoder.old }
{
    while let Some((form, event)) = recoder.drain() {
        put_all(out, &form)?;
        account.note(event);
    }
    Ok(())
}

fn status_of(fault: SinkFault) -> Status
    ensures { result ≡ status_of_fault fault }
{
    match fault {
        SinkFault::Failed => Status::WriteFault,
        SinkFault::Memory => Status::Memory,
    }
}

fn ended_by(stopped: Stopped) -> Status
    ensures { result ≡ status_of_stop stopped }
{
    match stopped {
        Stopped::Stop { case, place } => Status::Stop { case, place },
        Stopped::Outside { unit, why } => Status::Outside { unit, why },
        Stopped::Memory => Status::Memory,
    }
}

// Reads at most so many bytes into the front of a buffer.
fn read_some<S: Source>(src: &mut S, buf: &mut [u8], room: usize) -> Result<usize, Failed>
    requires fits { room ≤ length buf.old }
    requires some { 0 < room }
    ensures bytes { ReadsSome (S.left src.old) (S.left src.new) room buf.new result }
    ensures cause { HasCause (S.faults src.old) (S.faults src.new) result }
{
    src.read(&mut buf[..room])
}

// How many bytes to ask for where so many are left to the bound: at the bound one more, to see whether it comes.
fn room_for(left: u64) -> usize
    ensures some { 0 < result }
    ensures fits { result ≤ PIECE }
    ensures most { 0 < left → result ≡ min left 65536 }
    ensures one { left ≡ 0 → result ≡ 1 }
{
    if left == 0 {
        1
    } else if left < PIECE as u64 {
        left as usize
    } else {
        PIECE
    }
}
