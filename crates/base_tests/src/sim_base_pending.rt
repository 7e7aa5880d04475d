//! Tests of pending messages: long lists, and their marks.
ghost use Rattle.std.specs.Prelude.{bit_or, bit_and, ◌==◌, if◌then◌else◌, Option, Some, None};

use crate::sim_base_messages::message;
use sim_base::{Marks, Msg, NoMemory, Pending};
use std::alloc::Global;
use std::test::Fail;

/// Sets of the numbers below 8, a bit for each.
#[derive(Clone, Copy, PartialEq, Eq)]
struct Bits {
    bits: u8,
}

impl Marks for Bits {
    ghost union = { λ a b. record { bits = bit_or a.bits b.bits } };

    ghost common = { λ a b. if bit_and a.bits b.bits == 0 then None
        else Some (record { bits = bit_and a.bits b.bits }) };

    fn join(self, other: Bits) -> Bits {
        Bits {
            bits: self.bits | other.bits,
        }
    }

    fn meet(self, other: Bits) -> Option<Bits> {
        let bits = self.bits & other.bits;
        if bits == 0 { None } else { Some(Bits { bits }) }
    }
}

fn set(bits: u8) -> Bits {
    Bits { bits }
}

/// Whether the least message is this one with these marks; it is removed.
fn takes(pending: &mut Pending<Bits>, msg: Msg, marks: u8) -> bool {
    pending.take_least() == Some((msg, set(marks)))
}

/// Puts a message of this time in.
fn puts(pending: &mut Pending<Bits>, time: u64, marks: u8) -> bool {
    pending.insert(message(time, 1, 0), set(marks)).is_ok()
}

/// Puts in 60,000 messages with times from 0 on, in scrambled order.
fn puts_scrambled(pending: &mut Pending<Bits>) -> bool {
    for i in 0..60_000_u64 {
        if !puts(pending, i * 7_919 % 60_000, 0b01) {
            return false;
        }
    }
    true
}

/// Puts in each third of them again, with another mark.
fn puts_each_third(pending: &mut Pending<Bits>) -> bool {
    for i in 0..20_000_u64 {
        if !puts(pending, i * 3, 0b10) {
            return false;
        }
    }
    true
}

/// 60,000 messages, each third of them twice, are removed in order of time, each once with the marks of both.
#[test]
fn sixty_thousand_messages_wait_in_one_list(rt: HostRuntime) {
    let mut pending = Pending::new(rt.alloc());
    assert!(rt; puts_scrambled(&mut pending) && puts_each_third(&mut pending));
    for time in 0..60_000_u64 {
        let marks = if time % 3 == 0 { 0b11 } else { 0b01 };
        assert!(rt; takes(&mut pending, message(time, 1, 0), marks));
    }
    assert!(rt; pending.is_empty());
}

/// Messages at each time below 1,000, the even ones with other marks than the odd ones.
fn even_and_odd(alloc: Global) -> Result<Pending<Bits>, NoMemory> {
    let mut all = Pending::new(alloc);
    for i in 0..1_000_u64 {
        let marks = if i % 2 == 0 { 0b10 } else { 0b01 };
        all.insert(message(i, 1, 0), set(marks))?;
    }
    Ok(all)
}

/// Whether the list has exactly each second message from this time on, with these marks; they are removed.
fn takes_each_second(pending: &mut Pending<Bits>, from: u64, marks: u8) -> bool {
    for i in 0..500_u64 {
        if !takes(pending, message(from.wrapping_add(2 * i), 1, 0), marks) {
            return false;
        }
    }
    pending.is_empty()
}

fn even_are_cut(alloc: Global, all: &Pending<Bits>) -> bool {
    match all.cut(alloc, set(0b10)) {
        Ok(mut even) => takes_each_second(&mut even, 0, 0b10),
        Err(_) => false,
    }
}

fn odd_are_left(alloc: Global, all: &Pending<Bits>) -> bool {
    match all.copy(alloc) {
        Ok(mut odd) => {
            odd.keep(set(0b01));
            takes_each_second(&mut odd, 1, 0b01)
        }
        Err(_) => false,
    }
}

/// The even ones of 1,000 messages go to a separate list, and the odd ones stay.
#[test]
fn a_long_list_is_parted(rt: HostRuntime) -> Result<(), Fail> {
    let mut all = even_and_odd(rt.alloc())?;
    assert!(rt; even_are_cut(rt.alloc(), &all) && odd_are_left(rt.alloc(), &all));
    assert!(rt; takes(&mut all, message(0, 1, 0), 0b10));
    Ok(())
}
