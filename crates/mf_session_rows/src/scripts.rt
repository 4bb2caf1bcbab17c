//! Lines of a caller that publishes and formats.
use std::alloc::{AllocError, Global};

/// In each round a caller publishes a message that names the round, asks for it, and asks for the
/// counts: so many rounds, three lines each.
pub fn script(alloc: Global, caller: u64, rounds: u64) -> Result<String, AllocError> {
    let mut script = String::new(alloc);
    for round in 0..rounds {
        script.push_str(format!(in alloc;
            "{{\"op\":\"publish\",\"locale\":\"en\",\"messages\":{{\"a\":\"{round} of {caller}\"}}}}\n"
        )?.as_str())?;
        script.push_str("{\"op\":\"format\",\"locale\":\"en\",\"id\":\"a\"}\n{\"op\":\"stat\"}\n")?;
    }
    Ok(script)
}
