//! Messages in one number of 128 bits, if their own numbers are small enough. Such numbers have the order of their
//! messages.
ghost use Rattle.std.specs.Prelude.{◌≡◌, ◌<◌, IfSome, IfNone, refl};
ghost use Rattle.std.specs.Ordering.{flip_args, as_partial_cmp, eq_by_cmp};
ghost use Rattle.std.specs.Cmp.{back_total, eq_by_cmp_equiv, partial_equiv_from_equiv, partial_order_from_own_ties};
ghost use Rattle.std.specs.Cmp.{partial_order_from_total};
ghost use Rattle.sim_base.specs.Order.{msg_cmp, param_index, payload_index};
ghost use Rattle.sim_base.proofs.OrderLaws.{msg_total};
ghost use Rattle.msg_heap.specs.Packing.{content_word, first_of, second_of, third_of, HasSource, NumbersFit};
ghost use Rattle.msg_heap.specs.Packing.{payload_of, param_at, key_at, receiver_at, payload_at, message_of};
ghost use Rattle.msg_heap.specs.Packing.{Fits, FitsHead, IsContent, IsPacked, packed, unpacked};
ghost use Rattle.msg_heap.specs.Contents.{as_payload};
ghost use Rattle.sim_base.specs.KeyWords.{FitsWord};
ghost use Rattle.sim_base.specs.declared.message.Payload.TheVariants.{Tick, Job as JobOf, Done as DoneOf};

use crate::content::Content;
use crate::job::PackedJob;
use sim_base::{Change, Job, Key, Msg, Param, Payload};
use std::cmp::Ordering;
use std::marker::Model;

/// The high word of no message: it stands for a message that is absent, or elsewhere.
pub const NO_MESSAGE: u64 = u64::MAX;

/// The number of first numbers of a payload, sources of jobs or parameters: 6 bits.
pub const FIRSTS: u64 = 64;

/// The number of second numbers, counts of jobs or a change's first values: 26 bits.
pub const SECONDS: u64 = 67_108_864;

/// The number of third numbers, times of birth or a change's second values: 30 bits.
pub const THIRDS: u64 = 1_073_741_824;

/// A message in 16 bytes. The greatest one is the message that comes first, so that a heap has it on top.
#[derive(Clone, Copy)]
pub struct PackedMsg {
    word: u128,
}

impl Model for PackedMsg {
    ghost use Rattle.sim_base.specs.declared.message.Msg.{Msg};
    ghost use Rattle.msg_heap.specs.Packing.{unpacked, packed, IsPacked};

    ghost Value = { Msg };

    ghost view = { λ p. unpacked p.word };

    ghost invariant = { λ p. IsPacked p.word };

    ghost inverse = { λ m. record { word = packed m } };

    ghost inverse_ok = { λ p h i. record { word = h.back i } };
}

impl PartialEq for PackedMsg {
    ghost eq = { eq_by_cmp (flip_args msg_cmp) };

    ghost laws = { partial_equiv_from_equiv (eq_by_cmp_equiv (back_total msg_total)) };

    fn eq(&self, other: &PackedMsg) -> bool {
        self.word == other.word
    }
}

impl Eq for PackedMsg {
    ghost laws = { eq_by_cmp_equiv (back_total msg_total) };
}

impl Ord for PackedMsg {
    ghost cmp = { flip_args msg_cmp };

    ghost total = { back_total msg_total };

    ghost matches_partial_cmp = { λ a b. refl };

    ghost matches_eq = { λ a b. refl };

    fn cmp(&self, other: &PackedMsg) -> Ordering {
        other.word.cmp(&self.word)
    }
}

impl PartialOrd for PackedMsg {
    ghost partial_cmp = { as_partial_cmp (flip_args msg_cmp) };

    ghost laws = { partial_order_from_total (back_total msg_total) };

    fn partial_cmp(&self, other: &PackedMsg) -> Option<Ordering> {
        Some(self.cmp(other))
    }
}

// A kind of payload and its three numbers.
#[derive(Clone, Copy)]
struct Numbers {
    kind: u64,
    first: u64,
    second: u64,
    third: u64,
}

impl PackedMsg {
    /// The message in 16 bytes, or None if one of its numbers is too large, or a receiver or source is 0.
    #[inline(always)]
    pub fn of(msg: &Msg) -> Option<PackedMsg>
        ensures value { IfSome result (λ p. p ≡ msg.now) }
        ensures none { IfNone result (¬ Fits msg.now) }
    {
        let numbers = numbers_of(&msg.payload);
        let place = u64::from(msg.to).wrapping_sub(1);
        if excess(msg.key, place, numbers) != 0 {
            return None;
        }
        let high = msg.key.word(place);
        let low = content_word(numbers);
        Some(PackedMsg {
            word: u128::from(high) * (1 << 64) + u128::from(low),
        })
    }

    /// The message.
    #[inline(always)]
    pub fn msg(self) -> Msg
        ensures value { result ≡ self }
    {
        message_of_words((self.word >> 64) as u64, (self.word % (1 << 64)) as u64)
    }

    /// The time of the message.
    #[inline(always)]
    pub fn time(self) -> u64
        ensures value { result ≡ self.key.time }
    {
        (self.word >> 64) as u64 >> 34
    }

    /// Its two words: the one of its key and receiver, and the one of its payload. The first is never `NO_MESSAGE`.
    #[inline(always)]
    pub fn words(self) -> (u64, u64)
        ensures value { message_of result.0 result.1 ≡ self }
        ensures some { result.0 < NO_MESSAGE }
        ensures fits { FitsWord self.key }
    {
        ((self.word >> 64) as u64, (self.word % (1 << 64)) as u64)
    }

    /// The key of the message.
    #[inline(always)]
    pub fn key(self) -> Key
        ensures value { result ≡ self.key }
    {
        key_of_word((self.word >> 64) as u64)
    }

    /// The receiver of the message.
    #[inline(always)]
    pub fn to(self) -> u32
        ensures value { result ≡ self.to }
    {
        receiver_of_word((self.word >> 64) as u64)
    }

    /// The payload, or None for a change.
    #[inline(always)]
    pub fn content(self) -> Option<Content>
        ensures value { IfSome result (λ c. as_payload c ≡ self.payload) }
        ensures none { IfNone result (payload_index self.payload ≡ 3) }
    {
        content_of_word((self.word % (1 << 64)) as u64)
    }

    /// A message that makes a source's next job.
    #[inline(always)]
    pub fn tick(key: Key, to: u32) -> PackedMsg
        requires fits { FitsHead key to }
        ensures value { result ≡ record { key = key; to = to; payload = Tick } }
    {
        PackedMsg::with_content(key, to, 0)
    }

    /// A message by which a job arrives.
    #[inline(always)]
    pub fn with_job(key: Key, to: u32, job: PackedJob) -> PackedMsg
        requires fits { FitsHead key to }
        ensures value { result ≡ record { key = key; to = to; payload = JobOf job } }
    {
        PackedMsg::with_content(key, to, (1 << 62) + job.word())
    }

    /// A message by which the service of a job ends.
    #[inline(always)]
    pub fn with_done(key: Key, to: u32, job: PackedJob) -> PackedMsg
        requires fits { FitsHead key to }
        ensures value { result ≡ record { key = key; to = to; payload = DoneOf job } }
    {
        PackedMsg::with_content(key, to, (2 << 62) + job.word())
    }

    // The message of a key, a receiver and a content word.
    #[inline(always)]
    fn with_content(key: Key, to: u32, low: u64) -> PackedMsg
        requires fits { FitsHead key to }
        requires content { IsContent low }
        ensures value { result ≡ record { key = key; to = to; payload = payload_at low } }
    {
        let high = key.word(u64::from(to) - 1);
        PackedMsg {
            word: u128::from(high) * (1 << 64) + u128::from(low),
        }
    }

    /// Its number.
    #[inline(always)]
    pub(crate) fn number(self) -> u128
        ensures value { result ≡ packed self }
        ensures message { unpacked result ≡ self }
        ensures fits { IsPacked result }
    {
        self.word
    }

    /// The message of a number.
    #[inline(always)]
    pub(crate) fn of_number(number: u128) -> PackedMsg
        requires fits { IsPacked number }
        ensures value { result ≡ unpacked number }
    {
        PackedMsg { word: number }
    }
}

// The payload of a content word, or None for a change.
#[inline(always)]
fn content_of_word(low: u64) -> Option<Content>
    ensures value { IfSome result (λ c. as_payload c ≡ payload_at low) }
    ensures none { IfNone result (payload_index (payload_at low) ≡ 3) }
{
    let kind = low >> 62;
    if kind == 0 {
        return Some(Content::Tick);
    }
    if kind == 3 {
        return None;
    }
    let job = PackedJob::of_word(low % (1 << 62));
    if kind == 1 {
        Some(Content::Job(job))
    } else {
        Some(Content::Done(job))
    }
}

/// The message of two words. Any words have one.
#[inline(always)]
pub fn message_of_words(high: u64, low: u64) -> Msg
    ensures value { result ≡ message_of high low }
{
    Msg {
        key: key_of_word(high),
        to: receiver_of_word(high),
        payload: payload_of_word(low),
    }
}

/// The key in the first word of a message.
#[inline(always)]
pub fn key_of_word(high: u64) -> Key
    ensures value { result ≡ key_at high }
{
    Key {
        time: high >> 34,
        sender: ((high >> 27) % (1 << 7)) as u32,
        number: (high >> 6) % (1 << 21),
    }
}

/// The receiver in the first word of a message.
#[inline(always)]
pub fn receiver_of_word(high: u64) -> u32
    ensures value { result ≡ receiver_at high }
{
    (high % (1 << 6)) as u32 + 1
}

/// The payload in the second word of a message.
#[inline(always)]
pub fn payload_of_word(low: u64) -> Payload
    ensures value { result ≡ payload_at low }
{
    payload_of(
        low >> 62,
        (low >> 56) % (1 << 6),
        (low >> 30) % (1 << 26),
        low % (1 << 30),
    )
}

// The kind and the numbers of a payload. If a job has no source, the first is too large.
#[inline(always)]
fn numbers_of(payload: &Payload) -> Numbers
    ensures kind { result.kind ≡ payload_index payload.now }
    ensures source { result.first < FIRSTS → HasSource payload.now }
    ensures first { result.first < FIRSTS → result.first ≡ first_of payload.now }
    ensures with_source { HasSource payload.now → result.first ≡ first_of payload.now }
    ensures second { result.second ≡ second_of payload.now }
    ensures third { result.third ≡ third_of payload.now }
{
    match *payload {
        Payload::Tick => Numbers {
            kind: 0,
            first: 0,
            second: 0,
            third: 0,
        },
        Payload::Job(job) => Numbers {
            kind: 1,
            first: u64::from(job.source).wrapping_sub(1),
            second: job.count,
            third: job.born,
        },
        Payload::Done(job) => Numbers {
            kind: 2,
            first: u64::from(job.source).wrapping_sub(1),
            second: job.count,
            third: job.born,
        },
        Payload::Set(change) => Numbers {
            kind: 3,
            first: index_of(change.param),
            second: change.a,
            third: change.b,
        },
    }
}

// What the numbers have beyond their bits: 0 if all fit.
#[inline(always)]
fn excess(key: Key, place: u64, numbers: Numbers) -> u64
    ensures fits { result ≡ 0 → NumbersFit key place numbers.first numbers.second numbers.third }
    ensures none { NumbersFit key place numbers.first numbers.second numbers.third → result ≡ 0 }
{
    (key.time >> 30)
        | ((u64::from(key.sender) + 1) >> 7)
        | (key.number >> 21)
        | (place >> 6)
        | (numbers.first >> 6)
        | (numbers.second >> 26)
        | (numbers.third >> 30)
}

// A kind and three numbers as a word.
#[inline(always)]
fn content_word(numbers: Numbers) -> u64
    requires kind { numbers.kind < 4 }
    requires first { numbers.first < FIRSTS }
    requires second { numbers.second < SECONDS }
    requires third { numbers.third < THIRDS }
    ensures value { result ≡ content_word numbers.kind numbers.first numbers.second numbers.third }
{
    ((numbers.kind * FIRSTS + numbers.first) * SECONDS + numbers.second) * THIRDS + numbers.third
}

// The index of a parameter.
#[inline(always)]
fn index_of(param: Param) -> u64
    ensures value { result ≡ param_index param }
{
    match param {
        Param::Every => 0,
        Param::Service => 1,
        Param::Hold => 2,
        Param::Servers => 3,
        Param::Room => 4,
        Param::Weight => 5,
    }
}

// The parameter with this index.
#[inline(always)]
fn param_at(index: u64) -> Param
    ensures value { result ≡ param_at index }
{
    match index {
        0 => Param::Every,
        1 => Param::Service,
        2 => Param::Hold,
        3 => Param::Servers,
        4 => Param::Room,
        _ => Param::Weight,
    }
}

// The payload of a kind and three numbers.
#[inline(always)]
fn payload_of(kind: u64, first: u64, second: u64, third: u64) -> Payload
    requires small { first < FIRSTS }
    ensures value { result ≡ payload_of kind first second third }
{
    let job = Job {
        source: first as u32 + 1,
        count: second,
        born: third,
    };
    match kind {
        0 => Payload::Tick,
        1 => Payload::Job(job),
        2 => Payload::Done(job),
        _ => Payload::Set(Change {
            param: param_at(first),
            a: second,
            b: third,
        }),
    }
}
