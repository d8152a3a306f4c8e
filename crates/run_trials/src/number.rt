//! Numbers of a script.

use crate::fault::ScriptWhy;
use std::str::FromStr;

/// Parses a number that fits its type.
pub fn read_number<N: FromStr>(word: &str) -> Result<N, ScriptWhy>
where
    N::Err: Drop,
{
    match word.parse::<N>() {
        Ok(number) => Ok(number),
        Err(_) => Err(ScriptWhy::Number),
    }
}
