//! Tests of generated studies: their texts equal those of another program that implements the format, and the models of
//! many numbers are read. It is proved that each decision of the script is accepted, whatever the number.

mod texts;

use net_model::read_model;
use std::alloc::Global;
use std::test::Fail;
use study_generator::{Made, generate};
use texts::{ROWS, Row, SCRIPT};

fn is_so(made: &Made, row: &Row) -> bool {
    made.model.as_slice() == row.model.as_bytes() && made.script.as_slice() == SCRIPT.as_bytes()
}

#[test]
fn texts_are_those_of_the_format(rt: HostRuntime) -> Result<(), Fail> {
    for row in ROWS {
        let made = generate(rt.alloc(), row.number)?;
        assert!(rt; is_so(&made, row), "{}", row.shows);
    }
    Ok(())
}

/// The number of stations and the seed of the model of this number.
fn figures(alloc: Global, number: u32) -> Option<(u32, u64)> {
    let made = generate(alloc, number).ok()?;
    let model = read_model(alloc, made.model.as_slice()).ok()?;
    Some((model.len(), model.seed()))
}

#[test]
fn models_of_many_numbers_are_read(rt: HostRuntime) {
    for number in 1..201u32 {
        let wanted = (5 + number % 8, u64::from(number));
        assert!(rt; figures(rt.alloc(), number) == Some(wanted), "{number}");
    }
    assert!(rt; figures(rt.alloc(), 999_998) == Some((11, 999_998)));
    assert!(rt; figures(rt.alloc(), 999_999) == Some((12, 999_999)));
}
