//! The arguments of a command.

ghost use Rattle.std.specs.Prelude.{◌≡◌, ◌↔◌, ◌<◌, ◌≤◌, slice_get, length, Ok, Some, IsTrue, IfOk};
ghost use Rattle.std.specs.Char.{IsAsciiDigit};
ghost use Rattle.std.specs.List.{All};
ghost use Rattle.desk_args.specs.Order.{Asks, IsAsked, IsAskedWithin, IsName, IsNameByte, IsNaturalText, IsWithinLimits, Ordered, OrderedBy, OrdersAs, ReadsName, ReadsNumber, budget_alone, crowd_moves_and_budget, most_seed, moves_and_budget, moves_name_and_budget, moves_up_to, name_and_budget, no_words, rows, seed_and_count, textless_rows, texts, two_names, usage_line};

use limits::{Budget, MOST_MOVES};

/// The greatest budget that an argument may name, in states.
pub const MOST_NAMED_STATES: u32 = 200_000;

/// The budget if no argument names one, in states.
pub const DEFAULT_STATES: u32 = 50_000;

/// The greatest number of moves for a crowd.
pub const MOST_CROWD_MOVES: u8 = 2;

/// The greatest number of positions of `drill`.
const MOST_POSITIONS: u64 = 100;

/// The greatest length of a name, in bytes.
const MOST_NAME_BYTES: usize = 32;

/// The index of the name among the arguments of `keep`, counted from 0.
const KEEP_NAME: usize = 2;

/// The index of the name among the arguments of `check` and of `resume`, and of the file to read among those of
/// `migrate`.
const FILE_NAME: usize = 1;

/// The index of the file to write among the arguments of `migrate`.
const NEW_NAME: usize = 2;

/// A command with its numbers.
#[derive(Clone, Copy, PartialEq, Eq)]
pub enum Order {
    /// Print whether the winner of the text can force mate within `moves` moves of his own. The budget bounds the
    /// states of each step.
    Decide { moves: u8, budget: Budget },
    /// Print the least number of moves, up to `limit`, within which the winner can force mate. Each number of moves has
    /// the budget.
    Least { limit: u8, budget: Budget },
    /// Print, for each ray, the winning first moves of a mate within `moves` moves. The budget is that of `Decide`.
    First { moves: u8, budget: Budget },
    /// Describe, for each ray, at which distances the winner's first moves mate within `moves` moves. The budget is
    /// that of `Decide`, of the formula of each ray, and of the formulas by which periods are tried.
    Describe { moves: u8, budget: Budget },
    /// Play the winner in a game, against any replies, and mate within `moves` moves. The budget is that of `Decide`.
    Play { moves: u8, budget: Budget },
    /// Play the loser in a game in which the winner does not mate within `moves` moves, whatever he plays. The budget
    /// is that of `Decide`.
    Defend { moves: u8, budget: Budget },
    /// Write a file of the sets by which the winner mates within `moves` moves, if he can. The budget is that of
    /// `Decide`.
    Keep { moves: u8, budget: Budget },
    /// Print whether the winner of a crowd text can force mate within `moves` moves. The budget bounds the states of
    /// each step.
    Crowd { moves: u8, budget: Budget },
    /// Check a strategy file, and print within how many moves it mates. The budget is that of the plan that checks its
    /// claim.
    Check { budget: Budget },
    /// Check a strategy file, and play the game by its sets. The budget is that of `Check`.
    Resume { budget: Budget },
    /// Write the claim of a strategy file under another name, in the newest version of the format.
    Migrate,
    /// Print the position, whether the side to move is in check, and the number of live men.
    Show,
    /// Print in how many of `count` positions, which follow from the seed, White mates in one move.
    Drill { seed: u64, count: u8 },
    /// Print whether the formula in the first line is true over all integers. The budget bounds the states of each
    /// step.
    Arith { budget: Budget },
}

/// A command that reads a position text, with its name argument.
#[derive(Clone, Copy)]
pub enum TextOrder<'a> {
    Decide {
        moves: u8,
        budget: Budget,
    },
    Least {
        limit: u8,
        budget: Budget,
    },
    First {
        moves: u8,
        budget: Budget,
    },
    Describe {
        moves: u8,
        budget: Budget,
    },
    Play {
        moves: u8,
        budget: Budget,
    },
    Defend {
        moves: u8,
        budget: Budget,
    },
    Keep {
        moves: u8,
        budget: Budget,
        name: &'a str,
    },
    Show,
}

/// A command with its name arguments, by what it reads.
#[derive(Clone, Copy)]
pub enum Asked<'a> {
    /// Reads the position text at the front of the input.
    Text(TextOrder<'a>),
    /// Reads the crowd text at the front of the input.
    Crowd { moves: u8, budget: Budget },
    /// Checks the file of this name.
    Check { name: &'a str, budget: Budget },
    /// Plays the game by the file of this name.
    Resume { name: &'a str, budget: Budget },
    /// Writes the claim of the file `from` under the name `to`.
    Migrate { from: &'a str, to: &'a str },
    /// Decides positions that follow from the seed.
    Drill { seed: u64, count: u8 },
    /// Decides the formula in the first line of the input.
    Arith { budget: Budget },
}

impl Order {
    /// Returns what these arguments, which are this command, ask for.
    pub fn asked(self, words: &Vec<String>) -> Asked
        requires ordered { Ordered (texts words.now.items) (Ok self) }
        requires within { IsWithinLimits self }
        ensures asked { IsAsked result (texts words.now.items) }
        ensures within { IsAskedWithin result }
    {
        match self {
            Order::Decide { moves, budget } => Asked::Text(TextOrder::Decide { moves, budget }),
            Order::Least { limit, budget } => Asked::Text(TextOrder::Least { limit, budget }),
            Order::First { moves, budget } => Asked::Text(TextOrder::First { moves, budget }),
            Order::Describe { moves, budget } => {
                Asked::Text(TextOrder::Describe { moves, budget })
            }
            Order::Play { moves, budget } => Asked::Text(TextOrder::Play { moves, budget }),
            Order::Defend { moves, budget } => Asked::Text(TextOrder::Defend { moves, budget }),
            Order::Keep { moves, budget } => {
                let name = word_at(words, KEEP_NAME);
                Asked::Text(TextOrder::Keep {
                    moves,
                    budget,
                    name,
                })
            }
            Order::Crowd { moves, budget } => Asked::Crowd { moves, budget },
            Order::Check { budget } => {
                let name = word_at(words, FILE_NAME);
                Asked::Check { name, budget }
            }
            Order::Resume { budget } => {
                let name = word_at(words, FILE_NAME);
                Asked::Resume { name, budget }
            }
            Order::Migrate => {
                let from = word_at(words, FILE_NAME);
                let to = word_at(words, NEW_NAME);
                Asked::Migrate { from, to }
            }
            Order::Show => Asked::Text(TextOrder::Show),
            Order::Drill { seed, count } => Asked::Drill { seed, count },
            Order::Arith { budget } => Asked::Arith { budget },
        }
    }
}

/// Why arguments are not a command. They are read from the left.
#[derive(Clone, Copy, PartialEq, Eq)]
pub enum UsageWhy {
    /// There are no arguments.
    NoCommand,
    /// The first argument is not a command.
    Unknown,
    /// The command takes another number of arguments.
    Count,
    /// An argument that must be a number is not one: `0`, or digits without a leading zero.
    Number,
    /// A number is outside its limits.
    Limit,
    /// An argument that must be a name is not one: 1 to 32 small letters, digits and `_`.
    Name,
}

impl UsageWhy {
    /// Returns the fault line.
    pub fn line(self) -> &'static [u8]
        ensures { result.now ≡ usage_line self }
    {
        match self {
            UsageWhy::NoCommand => b"usage no command\n",
            UsageWhy::Unknown => b"usage unknown\n",
            UsageWhy::Count => b"usage count\n",
            UsageWhy::Number => b"usage number\n",
            UsageWhy::Limit => b"usage limit\n",
            UsageWhy::Name => b"usage name\n",
        }
    }
}

/// Parses the arguments of the command line.
pub fn order_of(words: &Vec<String>) -> Result<Order, UsageWhy>
    ensures ordered { Ordered (texts words.now.items) result }
    ensures within { IfOk result IsWithinLimits }
{
    match words.as_slice() {
        [] => Err(UsageWhy::NoCommand),
        [word, rest @ ..] => order_named(word.as_str(), rest),
    }
}

/// Parses the arguments after the name of a command.
fn order_named(name: &str, words: &[String]) -> Result<Order, UsageWhy>
    ensures ordered { OrderedBy rows name.now (texts words.now) result }
    ensures within { IfOk result IsWithinLimits }
{
    match name.as_bytes() {
        b"decide" => decide_order(words),
        b"least" => least_order(words),
        b"first" => first_order(words),
        b"describe" => describe_order(words),
        b"play" => play_order(words),
        b"defend" => defend_order(words),
        b"keep" => keep_order(words),
        b"show" => show_order(words),
        _ => textless_order_named(name, words),
    }
}

/// Parses the arguments after the name of a command that reads no position text.
fn textless_order_named(name: &str, words: &[String]) -> Result<Order, UsageWhy>
    ensures ordered { OrderedBy textless_rows name.now (texts words.now) result }
    ensures within { IfOk result IsWithinLimits }
{
    match name.as_bytes() {
        b"crowd" => crowd_order(words),
        b"check" => check_order(words),
        b"resume" => resume_order(words),
        b"migrate" => migrate_order(words),
        b"drill" => drill_order(words),
        b"arith" => arith_order(words),
        _ => Err(UsageWhy::Unknown),
    }
}

/// Parses the arguments after `decide`.
fn decide_order(words: &[String]) -> Result<Order, UsageWhy>
    ensures ordered { OrdersAs moves_and_budget (λ asked. Order.Decide asked.0 asked.1) (texts words.now) result }
    ensures within { IfOk result IsWithinLimits }
{
    let (moves, budget) = read_moves_and_budget(words)?;
    Ok(Order::Decide { moves, budget })
}

/// Parses the arguments after `least`.
fn least_order(words: &[String]) -> Result<Order, UsageWhy>
    ensures ordered { OrdersAs moves_and_budget (λ asked. Order.Least asked.0 asked.1) (texts words.now) result }
    ensures within { IfOk result IsWithinLimits }
{
    let (limit, budget) = read_moves_and_budget(words)?;
    Ok(Order::Least { limit, budget })
}

/// Parses the arguments after `first`.
fn first_order(words: &[String]) -> Result<Order, UsageWhy>
    ensures ordered { OrdersAs moves_and_budget (λ asked. Order.First asked.0 asked.1) (texts words.now) result }
    ensures within { IfOk result IsWithinLimits }
{
    let (moves, budget) = read_moves_and_budget(words)?;
    Ok(Order::First { moves, budget })
}

/// Parses the arguments after `describe`.
fn describe_order(words: &[String]) -> Result<Order, UsageWhy>
    ensures ordered { OrdersAs moves_and_budget (λ asked. Order.Describe asked.0 asked.1) (texts words.now) result }
    ensures within { IfOk result IsWithinLimits }
{
    let (moves, budget) = read_moves_and_budget(words)?;
    Ok(Order::Describe { moves, budget })
}

/// Parses the arguments after `play`.
fn play_order(words: &[String]) -> Result<Order, UsageWhy>
    ensures ordered { OrdersAs moves_and_budget (λ asked. Order.Play asked.0 asked.1) (texts words.now) result }
    ensures within { IfOk result IsWithinLimits }
{
    let (moves, budget) = read_moves_and_budget(words)?;
    Ok(Order::Play { moves, budget })
}

/// Parses the arguments after `defend`.
fn defend_order(words: &[String]) -> Result<Order, UsageWhy>
    ensures ordered { OrdersAs moves_and_budget (λ asked. Order.Defend asked.0 asked.1) (texts words.now) result }
    ensures within { IfOk result IsWithinLimits }
{
    let (moves, budget) = read_moves_and_budget(words)?;
    Ok(Order::Defend { moves, budget })
}

/// Parses the arguments after `keep`.
fn keep_order(words: &[String]) -> Result<Order, UsageWhy>
    ensures ordered { OrdersAs moves_name_and_budget (λ asked. Order.Keep asked.0 asked.1) (texts words.now) result }
    ensures within { IfOk result IsWithinLimits }
{
    let (moves, budget) = read_moves_name_and_budget(words)?;
    Ok(Order::Keep { moves, budget })
}

/// Parses the arguments after `crowd`.
fn crowd_order(words: &[String]) -> Result<Order, UsageWhy>
    ensures ordered { OrdersAs crowd_moves_and_budget (λ asked. Order.Crowd asked.0 asked.1) (texts words.now) result }
    ensures within { IfOk result IsWithinLimits }
{
    let (moves, budget) = read_moves_up_to(words, MOST_CROWD_MOVES)?;
    Ok(Order::Crowd { moves, budget })
}

/// Parses the arguments after `check`.
fn check_order(words: &[String]) -> Result<Order, UsageWhy>
    ensures ordered { OrdersAs name_and_budget (λ budget. Order.Check budget) (texts words.now) result }
    ensures within { IfOk result IsWithinLimits }
{
    let budget = read_name_and_budget(words)?;
    Ok(Order::Check { budget })
}

/// Parses the arguments after `resume`.
fn resume_order(words: &[String]) -> Result<Order, UsageWhy>
    ensures ordered { OrdersAs name_and_budget (λ budget. Order.Resume budget) (texts words.now) result }
    ensures within { IfOk result IsWithinLimits }
{
    let budget = read_name_and_budget(words)?;
    Ok(Order::Resume { budget })
}

/// Parses the arguments after `migrate`.
fn migrate_order(words: &[String]) -> Result<Order, UsageWhy>
    ensures ordered { OrdersAs two_names (λ asked. Order.Migrate) (texts words.now) result }
    ensures within { IfOk result IsWithinLimits }
{
    read_two_names(words)?;
    Ok(Order::Migrate)
}

/// Parses the arguments after `show`.
fn show_order(words: &[String]) -> Result<Order, UsageWhy>
    ensures ordered { OrdersAs no_words (λ asked. Order.Show) (texts words.now) result }
    ensures within { IfOk result IsWithinLimits }
{
    read_no_words(words)?;
    Ok(Order::Show)
}

/// Parses the arguments after `drill`.
fn drill_order(words: &[String]) -> Result<Order, UsageWhy>
    ensures ordered { OrdersAs seed_and_count (λ asked. Order.Drill asked.0 asked.1) (texts words.now) result }
    ensures within { IfOk result IsWithinLimits }
{
    let (seed, count) = read_seed_and_count(words)?;
    Ok(Order::Drill { seed, count })
}

/// Parses the arguments after `arith`.
fn arith_order(words: &[String]) -> Result<Order, UsageWhy>
    ensures ordered { OrdersAs budget_alone (λ budget. Order.Arith budget) (texts words.now) result }
    ensures within { IfOk result IsWithinLimits }
{
    let budget = read_budget_alone(words)?;
    Ok(Order::Arith { budget })
}

/// Parses a number of moves and an optional budget.
fn read_moves_and_budget(words: &[String]) -> Result<(u8, Budget), UsageWhy>
    ensures reads { Asks moves_and_budget (texts words.now) result }
    ensures within { IfOk result (λ asked. asked.0 ≤ MOST_MOVES) }
{
    read_moves_up_to(words, MOST_MOVES)
}

/// Parses a number of moves, at most `most`, and an optional budget.
fn read_moves_up_to(words: &[String], most: u8) -> Result<(u8, Budget), UsageWhy>
    ensures reads { Asks (moves_up_to most) (texts words.now) result }
    ensures within { IfOk result (λ asked. asked.0 ≤ most) }
{
    match words {
        [moves] => Ok((read_moves(moves.as_str(), most)?, default_budget())),
        [moves, budget] => Ok((
            read_moves(moves.as_str(), most)?,
            read_budget(budget.as_str())?,
        )),
        _ => Err(UsageWhy::Count),
    }
}

/// Parses a number of moves, a name, and an optional budget.
fn read_moves_name_and_budget(words: &[String]) -> Result<(u8, Budget), UsageWhy>
    ensures reads { Asks moves_name_and_budget (texts words.now) result }
    ensures within { IfOk result (λ asked. asked.0 ≤ MOST_MOVES) }
{
    match words {
        [moves, name] => {
            let moves = read_moves(moves.as_str(), MOST_MOVES)?;
            read_name(name.as_str())?;
            Ok((moves, default_budget()))
        }
        [moves, name, budget] => {
            let moves = read_moves(moves.as_str(), MOST_MOVES)?;
            read_name(name.as_str())?;
            Ok((moves, read_budget(budget.as_str())?))
        }
        _ => Err(UsageWhy::Count),
    }
}

/// Parses a name and an optional budget.
fn read_name_and_budget(words: &[String]) -> Result<Budget, UsageWhy>
    ensures { Asks name_and_budget (texts words.now) result }
{
    match words {
        [name] => {
            read_name(name.as_str())?;
            Ok(default_budget())
        }
        [name, budget] => {
            read_name(name.as_str())?;
            read_budget(budget.as_str())
        }
        _ => Err(UsageWhy::Count),
    }
}

/// Parses two names, which may be equal.
fn read_two_names(words: &[String]) -> Result<(), UsageWhy>
    ensures { Asks two_names (texts words.now) result }
{
    match words {
        [from, to] => {
            read_name(from.as_str())?;
            read_name(to.as_str())
        }
        _ => Err(UsageWhy::Count),
    }
}

/// Parses an optional budget.
fn read_budget_alone(words: &[String]) -> Result<Budget, UsageWhy>
    ensures { Asks budget_alone (texts words.now) result }
{
    match words {
        [] => Ok(default_budget()),
        [budget] => read_budget(budget.as_str()),
        _ => Err(UsageWhy::Count),
    }
}

/// Parses a seed and a number of positions.
fn read_seed_and_count(words: &[String]) -> Result<(u64, u8), UsageWhy>
    ensures reads { Asks seed_and_count (texts words.now) result }
    ensures seed { IfOk result (λ asked. asked.0 ≤ most_seed) }
    ensures count { IfOk result (λ asked. asked.1 ≤ 100) }
{
    match words {
        [seed, count] => Ok((read_seed(seed.as_str())?, read_count(count.as_str())?)),
        _ => Err(UsageWhy::Count),
    }
}

/// Accepts no argument.
fn read_no_words(words: &[String]) -> Result<(), UsageWhy>
    ensures { Asks no_words (texts words.now) result }
{
    if words.is_empty() {
        Ok(())
    } else {
        Err(UsageWhy::Count)
    }
}

/// Parses a number of moves from 0 to `most`.
fn read_moves(word: &str, most: u8) -> Result<u8, UsageWhy>
    ensures { ReadsNumber word.now 0 most result }
{
    Ok(read_number(word, 0, most as u64)? as u8)
}

/// Returns the budget if no argument names one.
fn default_budget() -> Budget
    ensures { result ≡ DEFAULT_STATES }
{
    Budget::new(DEFAULT_STATES)
}

/// Parses a budget.
fn read_budget(word: &str) -> Result<Budget, UsageWhy>
    ensures { ReadsNumber word.now 1 MOST_NAMED_STATES result }
{
    let states = read_number(word, 1, MOST_NAMED_STATES as u64)?;
    Ok(Budget::new(states as u32))
}

/// Accepts a name.
fn read_name(word: &str) -> Result<(), UsageWhy>
    ensures { ReadsName word.now result }
{
    if is_name(word.as_bytes()) {
        Ok(())
    } else {
        Err(UsageWhy::Name)
    }
}

/// Parses a seed.
fn read_seed(word: &str) -> Result<u64, UsageWhy>
    ensures { ReadsNumber word.now 0 most_seed result }
{
    read_number(word, 0, u64::MAX)
}

/// Parses a number of positions.
fn read_count(word: &str) -> Result<u8, UsageWhy>
    ensures { ReadsNumber word.now 0 100 result }
{
    Ok(read_number(word, 0, MOST_POSITIONS)? as u8)
}

/// Parses a natural number from `low` to `high`.
fn read_number(word: &str, low: u64, high: u64) -> Result<u64, UsageWhy>
    ensures { ReadsNumber word.now low high result }
{
    if !is_natural(word.as_bytes()) {
        return Err(UsageWhy::Number);
    }
    match word.parse::<u64>() {
        Ok(number) => {
            if number < low || number > high {
                return Err(UsageWhy::Limit);
            }
            Ok(number)
        }
        Err(_) => Err(UsageWhy::Limit),
    }
}

/// Returns whether the argument is `0`, or digits without a leading zero.
fn is_natural(word: &[u8]) -> bool
    ensures { IsTrue result ↔ IsNaturalText word.now }
{
    match word {
        [b'0', rest @ ..] => rest.is_empty(),
        [b'1'..=b'9', rest @ ..] => are_digits(rest),
        _ => false,
    }
}

fn are_digits(bytes: &[u8]) -> bool
    ensures { IsTrue result ↔ All IsAsciiDigit bytes.now }
{
    bytes.iter().all(|byte| byte.is_ascii_digit())
}

/// Returns whether the argument is a name.
fn is_name(word: &[u8]) -> bool
    ensures { IsTrue result ↔ IsName word.now }
{
    if word.is_empty() || word.len() > MOST_NAME_BYTES {
        return false;
    }
    are_name_bytes(word)
}

fn are_name_bytes(bytes: &[u8]) -> bool
    ensures { IsTrue result ↔ All IsNameByte bytes.now }
{
    bytes.iter().all(|byte| is_name_byte(*byte))
}

/// Returns whether the byte is a small letter, a digit or `_`.
fn is_name_byte(byte: u8) -> bool
    ensures { IsTrue result ↔ IsNameByte byte }
{
    matches!(byte, b'a'..=b'z' | b'0'..=b'9' | b'_')
}

/// Returns the argument at the index, counted from 0.
fn word_at(words: &Vec<String>, index: usize) -> &str
    requires { index < length words.now.items }
    ensures { slice_get (texts words.now.items) index ≡ Some result.now }
{
    words[index].as_str()
}
