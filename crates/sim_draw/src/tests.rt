//! Not proved, only tested here: the program's own draws are those of PCG's reference program.
use crate::draws::Draws;
use std::test::Fail;

#[test]
fn draws_of_the_reference_words(rt: HostRuntime) -> Result<(), Fail> {
    let mut draws = Draws::new(42, 54);
    assert_eq!(rt; draws.range(1, 10), 4);
    let mut later = draws.copy();
    assert_eq!(rt; draws.range(1, 10), 8);
    assert_eq!(rt; draws.range(1, 10), 5);
    assert_eq!(rt; draws.drawn(), 3);
    assert_eq!(rt; later.range(1, 10), 8, "a copy draws by itself");
    let mut leapt = Draws::at(42, 54, 2);
    assert_eq!(rt; leapt.range(1, 10), 5, "after two words");
    Ok(())
}

#[test]
fn picks_by_weight(rt: HostRuntime) -> Result<(), Fail> {
    let mut draws = Draws::new(42, 54);
    assert_eq!(rt; draws.pick(&[7]), 0);
    assert_eq!(rt; draws.drawn(), 0, "one weight draws nothing");
    assert_eq!(rt; draws.pick(&[4, 6]), 0, "word 3 modulo 10");
    assert_eq!(rt; draws.pick(&[4, 6]), 1, "word 7 modulo 10");
    Ok(())
}
