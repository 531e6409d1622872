// Inputs at the edges, with the refusals that the rules give them.
use super::*;
use machine::Refusal;
use std::test::Fail;

// One state, one key: number of states, number of keys, the move, and the extra byte.
const SMALL: [u8; 17] = [1, 0, 0, 0, 1, 0, 0, 0, 0, 0, 0, 0, 255, 255, 255, 255, 2];

fn refused(rt: &HostRuntime, bytes: &[u8]) -> Result<Option<Refusal>, Fail> {
    let row = numbers(rt.alloc(), bytes)?;
    match read_input(bytes, &row) {
        Ok(_) => Ok(None),
        Err(refusal) => Ok(Some(refusal)),
    }
}

#[test]
fn inputs_cut_short(rt: HostRuntime) -> Result<(), Fail> {
    assert_eq!(rt; refused(&rt, &[])?, Some(Refusal::Malformed(0)));
    assert_eq!(rt; refused(&rt, &[1])?, Some(Refusal::Malformed(0)));
    assert_eq!(rt; refused(&rt, &SMALL[0..7])?, Some(Refusal::Malformed(1)));
    assert_eq!(rt; refused(&rt, &SMALL[0..15])?, Some(Refusal::Malformed(3)));
    assert_eq!(rt; refused(&rt, &SMALL[0..16])?, Some(Refusal::Malformed(4)));
    assert_eq!(rt; refused(&rt, &SMALL)?, None);
    Ok(())
}

#[test]
fn inputs_out_of_bounds(rt: HostRuntime) -> Result<(), Fail> {
    assert_eq!(rt;
        refused(&rt, &[0, 0, 0, 0, 1, 0, 0, 0])?,
        Some(Refusal::Malformed(0))
    );
    assert_eq!(rt;
        refused(&rt, &[9, 0, 0, 0, 1, 0, 0, 0])?,
        Some(Refusal::Malformed(9))
    );
    assert_eq!(rt;
        refused(&rt, &[8, 0, 0, 0, 5, 0, 0, 0])?,
        Some(Refusal::Malformed(5))
    );
    assert_eq!(rt;
        refused(&rt, &[255, 255, 255, 255, 1, 0, 0, 0])?,
        Some(Refusal::Malformed(4294967295))
    );
    // A bad move is told only if the extra byte is there.
    let bad = [1, 0, 0, 0, 1, 0, 0, 0, 1, 0, 0, 0, 0, 0, 0, 0, 0];
    assert_eq!(rt; refused(&rt, &bad[0..16])?, Some(Refusal::Malformed(4)));
    assert_eq!(rt; refused(&rt, &bad)?, Some(Refusal::BadMove(0)));
    Ok(())
}

#[test]
fn words(rt: HostRuntime) -> Result<(), Fail> {
    assert_eq!(rt; word_text(rt.alloc(), &[])?.as_str(), "-");
    assert_eq!(rt; word_text(rt.alloc(), &[0, 0, 1, 3])?.as_str(), "0013");
    Ok(())
}
