//! Variables, named by letters.

use track_word::Var;
use trial_rows::{Row, RowError};

/// The variable of a letter from `a` to `p`.
fn var_of(field: &str) -> Result<Var, RowError> {
    match field.as_bytes() {
        [letter] if *letter >= b'a' && *letter <= b'p' => Ok(Var(*letter - b'a')),
        _ => Err(RowError::Word),
    }
}

/// Parses a variable from the next field.
pub fn var(row: &mut Row) -> Result<Var, RowError> {
    row.word().and_then(var_of)
}

/// Parses variables, separated by commas, from the next field. The field `-` has none.
pub fn vars(row: &mut Row) -> Result<Vec<Var>, RowError> {
    let field = row.word()?;
    let mut vars = Vec::new(row.alloc);
    if field == "-" {
        return Ok(vars);
    }
    for letter in field.split(',') {
        vars.push(var_of(letter)?)?;
    }
    Ok(vars)
}

/// Writes the letters of variables separated by commas, or `-` if there are none.
pub fn write_vars(row: &mut Row, vars: &[Var]) {
    if vars.is_empty() {
        row.write("-");
    }
    for (place, var) in vars.iter().enumerate() {
        row.separate(place, ',');
        match var.0 {
            0..=15 => row.write_mark((b'a' + var.0) as char),
            number => row.write_number(number),
        }
    }
}
