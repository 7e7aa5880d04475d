//! The line of a packed entry, written from its three words.
//!
//! Its numbers have at most 32 bits, except for the count of a source, delay or router and a sink's sum of times. Each
//! piece is one store of fixed size, and the next piece overwrites what it writes past its end.
ghost use Rattle.std.specs.Prelude.{◌≡◌, ◌≢◌, ◌+◌, ◌/◌, ◌%◌, ◌^◌, ◌≤◌, ◌++◌, length, take, codes, decimal};
ghost use Rattle.sim_base.specs.declared.name.TheConstants.{MAX_NAME_LEN};
ghost use Rattle.msg_heap.specs.Lines.{line_of};
ghost use Rattle.msg_heap.specs.Packing.{key_at, receiver_at, payload_at};
ghost use Rattle.log_chain.specs.Packing.{unpacked_entry};
ghost use Rattle.trace_report.specs.Slots.{AreNames};
ghost use Rattle.trace_report.specs.TraceText.{station_name, class_text, payload_text, counts_text, entry_line};
ghost use Rattle.trace_report.specs.Writers.{WritesExactly, WritesPiece};
ghost use Rattle.trace_report.specs.declared.digits.TheConstants.{MAX_NUMBER_LEN};
ghost use Rattle.trace_report.specs.declared.numbers.TheConstants.{MAX_U32_LEN};
ghost use Rattle.trace_report.specs.declared.stores.TheConstants.{SLACK};
ghost use Rattle.trace_report.specs.declared.packed_line.TheConstants.{MAX_START, MAX_CLASS, MAX_JOB};
ghost use Rattle.trace_report.specs.declared.packed_line.TheConstants.{MAX_PAYLOAD, MAX_COUNTS, MAX_PACKED_LINE};

use crate::digits::MAX_NUMBER_LEN;
use crate::groups::Groups;
use crate::lengths::MAX_PAYLOAD_LEN;
use crate::names::Names;
use crate::numbers::{MAX_SMALL_LEN, MAX_U32_LEN, put_number, put_short, put_small};
use crate::stores::{put1, put8, put16};
use crate::{line, pieces};
use log_chain::PackedEntry;
use msg_heap::packed::{key_of_word, payload_of_word, receiver_of_word};
use net_model::Model;
use sim_base::name::MAX_NAME_LEN;

/// The maximum number of bytes before the payload.
const MAX_START: usize = 3 + 2 * MAX_U32_LEN + 2 * MAX_NAME_LEN;

/// The maximum number of bytes in the class of a job, with the colon before it.
const MAX_CLASS: usize = 1 + MAX_U32_LEN;

/// The maximum number of bytes in a job.
const MAX_JOB: usize = MAX_NAME_LEN + 1 + MAX_U32_LEN + MAX_CLASS;

/// The maximum number of bytes in a payload, with the space before it.
const MAX_PAYLOAD: usize = 1 + MAX_PAYLOAD_LEN;

/// The maximum number of bytes in the counts of a station, with the space before them.
const MAX_COUNTS: usize = 27 + MAX_SMALL_LEN + 2 * MAX_U32_LEN;

/// The maximum number of bytes in the line of a packed entry.
pub const MAX_PACKED_LINE: usize = MAX_START + MAX_PAYLOAD + MAX_COUNTS + 1;

// Writes the name of a station, or the analyst's.
#[inline(always)]
fn put_station(bytes: &mut [u8], at: usize, model: &Model, names: &Names, s: u32) -> usize
    requires names { AreNames model.now names.now }
    requires free { at + SLACK ≤ length bytes.old }
    ensures written { WritesPiece (station_name model.now s) MAX_NAME_LEN at result bytes.old bytes.new }
{
    let slot = names.slot(model, s);
    put16(bytes, at, *slot.name.padded_bytes(), slot.name.len())
}

// Writes the time of a message, its receiver, its sender and its number, from the message's first word.
#[inline(always)]
fn put_start(bytes: &mut [u8], at: usize, model: &Model, names: &Names, high: u64) -> usize
    requires names { AreNames model.now names.now }
    requires free { at + MAX_START + SLACK ≤ length bytes.old }
    ensures written { WritesPiece
        (decimal (key_at high).time ++ codes " " ++ station_name model.now (receiver_at high) ++ codes " "
        ++ station_name model.now (key_at high).sender ++ codes " " ++ decimal (key_at high).number) MAX_START
        at result bytes.old bytes.new }
{
    let key = key_of_word(high);
    let at = put_number(bytes, at, names.groups(), key.time as u32);
    let at = put1(bytes, at, b' ');
    let at = put_station(bytes, at, model, names, receiver_of_word(high));
    let at = put1(bytes, at, b' ');
    let at = put_station(bytes, at, model, names, key.sender);
    let at = put1(bytes, at, b' ');
    put_number(bytes, at, names.groups(), key.number as u32)
}

// Writes the class of a source's jobs.
#[inline(never)]
fn put_class(bytes: &mut [u8], at: usize, model: &Model, names: &Names, source: u32) -> usize
    requires names { AreNames model.now names.now }
    requires classes { model.now.format ≡ 2 }
    requires free { at + MAX_CLASS + SLACK ≤ length bytes.old }
    ensures written { WritesPiece (class_text model.now source) MAX_CLASS at result bytes.old bytes.new }
{
    let at = put1(bytes, at, b':');
    let class = names.slot(model, source).class;
    put_number(bytes, at, names.groups(), class)
}

// Writes the class of a source's jobs, if the format has classes.
#[inline(always)]
fn put_class_if(bytes: &mut [u8], at: usize, model: &Model, names: &Names, source: u32) -> usize
    requires names { AreNames model.now names.now }
    requires free { at + MAX_CLASS + SLACK ≤ length bytes.old }
    ensures written { WritesPiece (class_text model.now source) MAX_CLASS at result bytes.old bytes.new }
{
    if model.format() == 2 {
        put_class(bytes, at, model, names, source)
    } else {
        at
    }
}

// Writes a job, from the second word of its message.
#[inline(always)]
fn put_job(bytes: &mut [u8], at: usize, model: &Model, names: &Names, low: u64) -> usize
    requires names { AreNames model.now names.now }
    requires free { at + MAX_JOB + SLACK ≤ length bytes.old }
    ensures written { WritesPiece
        (station_name model.now (low / 2 ^ 56 % 2 ^ 6 + 1) ++ codes "." ++ decimal (low / 2 ^ 30 % 2 ^ 26)
        ++ class_text model.now (low / 2 ^ 56 % 2 ^ 6 + 1)) MAX_JOB at result bytes.old bytes.new }
{
    let source = ((low >> 56) % (1 << 6)) as u32 + 1;
    let count = ((low >> 30) % (1 << 26)) as u32;
    let at = put_station(bytes, at, model, names, source);
    let at = put1(bytes, at, b'.');
    let at = put_number(bytes, at, names.groups(), count);
    put_class_if(bytes, at, model, names, source)
}

// Writes a space and the payload of a set, as `write_line` does: sets are rare.
#[inline(never)]
fn put_set(bytes: &mut [u8], at: usize, model: &Model, names: &Names, low: u64) -> usize
    requires names { AreNames model.now names.now }
    requires free { at + MAX_PAYLOAD + SLACK ≤ length bytes.old }
    ensures written { WritesPiece (codes " " ++ payload_text model.now (payload_at low)) MAX_PAYLOAD
        at result bytes.old bytes.new }
{
    let at = put1(bytes, at, b' ');
    line::put_payload(bytes, at, model, names, &payload_of_word(low))
}

// A space and the word of a job, for kind 1, or of a done.
#[inline(always)]
fn job_word(kind: u64) -> [u8; 8]
    ensures job { kind ≡ 1 → take 5 result ≡ codes " job " }
    ensures done { kind ≢ 1 → take 6 result ≡ codes " done " }
{
    if kind == 1 {
        *b" job    "
    } else {
        *b" done   "
    }
}

// Writes a space and the payload of a message, from the message's second word.
#[inline(always)]
fn put_payload(bytes: &mut [u8], at: usize, model: &Model, names: &Names, low: u64) -> usize
    requires names { AreNames model.now names.now }
    requires free { at + MAX_PAYLOAD + SLACK ≤ length bytes.old }
    ensures written { WritesPiece (codes " " ++ payload_text model.now (payload_at low)) MAX_PAYLOAD
        at result bytes.old bytes.new }
{
    let kind = low >> 62;
    if kind == 0 {
        put8(bytes, at, *b" tick   ", 5)
    } else if kind == 3 {
        put_set(bytes, at, model, names, low)
    } else {
        // one store for both words: a server's jobs and dones alternate, and such a jump is often predicted wrong
        let at = put8(bytes, at, job_word(kind), 4 + kind as usize);
        put_job(bytes, at, model, names, low)
    }
}

// Writes a word, and a number after it.
#[inline(always)]
fn put_count(
    bytes: &mut [u8],
    at: usize,
    groups: &Groups,
    word: [u8; 8],
    len: usize,
    n: u32,
) -> usize
    requires free { at + len + MAX_U32_LEN + SLACK ≤ length bytes.old }
    requires short { len ≤ 8 }
    ensures written { WritesPiece (take len word ++ decimal n) (len + MAX_U32_LEN) at result bytes.old bytes.new }
{
    let at = put8(bytes, at, word, len);
    put_number(bytes, at, groups, n)
}

// Writes a number of more than 32 bits.
#[inline(never)]
fn put_long(bytes: &mut [u8], at: usize, n: u64) -> usize
    requires free { at + MAX_NUMBER_LEN + SLACK ≤ length bytes.old }
    ensures written { WritesPiece (decimal n) MAX_NUMBER_LEN at result bytes.old bytes.new }
{
    pieces::put_number(bytes, at, n)
}

// Writes a number that may have more than 32 bits.
#[inline(always)]
fn put_wide(bytes: &mut [u8], at: usize, groups: &Groups, n: u64) -> usize
    requires free { at + MAX_NUMBER_LEN + SLACK ≤ length bytes.old }
    ensures written { WritesPiece (decimal n) MAX_NUMBER_LEN at result bytes.old bytes.new }
{
    if n < 1 << 32 {
        put_number(bytes, at, groups, n as u32)
    } else {
        put_long(bytes, at, n)
    }
}

// Writes the counts of a source.
#[inline(always)]
fn put_source(bytes: &mut [u8], at: usize, groups: &Groups, sent: u64) -> usize
    requires free { at + MAX_COUNTS + SLACK ≤ length bytes.old }
    ensures written { WritesPiece (codes " sent=" ++ decimal sent) MAX_COUNTS at result bytes.old bytes.new }
{
    let at = put8(bytes, at, *b" sent=  ", 6);
    put_wide(bytes, at, groups, sent)
}

// Writes the count of a delay or a router.
#[inline(always)]
fn put_passed(bytes: &mut [u8], at: usize, groups: &Groups, passed: u64) -> usize
    requires free { at + MAX_COUNTS + SLACK ≤ length bytes.old }
    ensures written { WritesPiece (codes " passed=" ++ decimal passed) MAX_COUNTS at result bytes.old bytes.new }
{
    let at = put8(bytes, at, *b" passed=", 8);
    put_wide(bytes, at, groups, passed)
}

// Writes the counts of a server, from their word.
#[inline(always)]
fn put_server(bytes: &mut [u8], at: usize, groups: &Groups, word: u64) -> usize
    requires free { at + MAX_COUNTS + SLACK ≤ length bytes.old }
    ensures written { WritesPiece (codes " busy=" ++ decimal (word / 2 ^ 53 % 2 ^ 5)
        ++ codes " wait=" ++ decimal (word / 2 ^ 40 % 2 ^ 13) ++ codes " done=" ++ decimal (word / 2 ^ 20 % 2 ^ 20)
        ++ codes " lost=" ++ decimal (word % 2 ^ 20)) MAX_COUNTS at result bytes.old bytes.new }
{
    let at = put8(bytes, at, *b" busy=  ", 6);
    let at = put_short(bytes, at, groups, ((word >> 53) % (1 << 5)) as u32);
    let at = put8(bytes, at, *b" wait=  ", 6);
    let at = put_small(bytes, at, groups, ((word >> 40) % (1 << 13)) as u32);
    let at = put_count(
        bytes,
        at,
        groups,
        *b" done=  ",
        6,
        ((word >> 20) % (1 << 20)) as u32,
    );
    put_count(
        bytes,
        at,
        groups,
        *b" lost=  ",
        6,
        (word % (1 << 20)) as u32,
    )
}

// Writes the counts of a sink, from their word.
#[inline(always)]
fn put_sink(bytes: &mut [u8], at: usize, groups: &Groups, word: u64) -> usize
    requires free { at + MAX_COUNTS + SLACK ≤ length bytes.old }
    ensures written { WritesPiece (codes " got=" ++ decimal (word / 2 ^ 46 % 2 ^ 17)
        ++ codes " stay=" ++ decimal (word % 2 ^ 46)) MAX_COUNTS at result bytes.old bytes.new }
{
    let at = put_count(
        bytes,
        at,
        groups,
        *b" got=   ",
        5,
        ((word >> 46) % (1 << 17)) as u32,
    );
    let at = put8(bytes, at, *b" stay=  ", 6);
    put_wide(bytes, at, groups, word % (1 << 46))
}

// Writes a space and the counts of a station, from their word.
#[inline(always)]
fn put_counts(bytes: &mut [u8], at: usize, groups: &Groups, word: u64) -> usize
    requires free { at + MAX_COUNTS + SLACK ≤ length bytes.old }
    ensures written { WritesPiece (codes " " ++ counts_text (line_of word)) MAX_COUNTS
        at result bytes.old bytes.new }
{
    let kind = word >> 61;
    if kind >= 4 {
        put_sink(bytes, at, groups, word)
    } else if kind >= 2 {
        put_passed(bytes, at, groups, word % (1 << 61))
    } else if kind == 1 {
        put_server(bytes, at, groups, word)
    } else {
        put_source(bytes, at, groups, word)
    }
}

/// Writes the line of a packed entry at a place, and returns the place after it, as `write_line` does.
#[inline(always)]
pub fn write_packed(
    bytes: &mut [u8],
    at: usize,
    model: &Model,
    names: &Names,
    packed: &PackedEntry,
) -> usize
    requires names { AreNames model.now names.now }
    requires free { at + MAX_PACKED_LINE + SLACK ≤ length bytes.old }
    ensures written { WritesExactly (entry_line model.now (unpacked_entry packed.now)) at result bytes.old bytes.new }
    ensures at_most { result ≤ at + MAX_PACKED_LINE }
{
    // a copy, which no written byte can change, so that each word is read once
    let packed = *packed;
    let at = put_start(bytes, at, model, names, packed.high);
    let at = put_payload(bytes, at, model, names, packed.low);
    let at = put_counts(bytes, at, names.groups(), packed.line.word());
    put1(bytes, at, b'\n')
}
