// What a test answers: each goes over its table in functions that say which place is wrong, as a loop that asserts is dear
// to prove.
use std::test::Fail;

/// No place of a table may be wrong.
pub(crate) fn none_is_wrong(wrong: Option<usize>) -> Result<(), Fail> {
    match wrong {
        None => Ok(()),
        Some(place) => Err(Fail::new(format_args!("not so at {place}"))),
    }
}

/// This has to be so.
pub(crate) fn is_so(well: bool) -> Result<(), Fail> {
    if well {
        Ok(())
    } else {
        Err(Fail::new("not so"))
    }
}
