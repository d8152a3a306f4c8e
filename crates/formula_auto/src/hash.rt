//! Hashes of formulas.
use lin_formula::Formula;
use std::hash::{FoldHasher, Hash, Hasher};
use track_word::Rel;

/// Returns a hash of the formula. Different formulas may have the same hash.
pub fn hash_of(f: &Formula) -> u64 {
    let mut hasher = FoldHasher::default();
    write_to(&mut hasher, f);
    hasher.finish()
}

/// Writes the parts in order and then the connective. Recurses one call per level.
fn write_to(hasher: &mut FoldHasher, f: &Formula) {
    match f {
        Formula::Lin { terms, rel, bound } => {
            terms.as_slice().hash(hasher);
            hasher.write_u8(match rel {
                Rel::Le => 0,
                Rel::Eq => 1,
            });
            hasher.write_i32(*bound);
        }
        Formula::Value { var, value } => {
            hasher.write_u8(var.0);
            hasher.write_i64(*value);
        }
        Formula::Among { set, vars } => {
            hasher.write_u32(set.0);
            vars.as_slice().hash(hasher);
        }
        Formula::Not(g) => {
            write_to(hasher, g);
            hasher.write_u8(2);
        }
        Formula::And(g, h) => {
            write_to(hasher, g);
            write_to(hasher, h);
            hasher.write_u8(3);
        }
        Formula::Or(g, h) => {
            write_to(hasher, g);
            write_to(hasher, h);
            hasher.write_u8(4);
        }
        Formula::Ex { var, body } => {
            write_to(hasher, body);
            hasher.write_u8(5);
            hasher.write_u8(var.0);
        }
    }
}
