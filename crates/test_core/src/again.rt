// Calls that may find no memory.

/// How often a call is made at most.
pub(crate) const TIMES: u32 = 3;

/// Makes a call until it finds memory.
pub(crate) fn again<T, E: Drop, F: FnMut() -> Result<T, E>>(mut call: F) -> Result<T, E>
    requires { F.IsAlwaysCallable call }
{
    for _time in 1..TIMES {
        match call() {
            Ok(value) => return Ok(value),
            Err(_) => (),
        }
    }
    call()
}
