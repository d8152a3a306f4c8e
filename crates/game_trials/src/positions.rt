//! Rows that query positions. A position is named first: `position NAME turn W/W K 0 -2/B K 0 0`, the lines of its text
//! without the first and the last, separated by `/`.

ghost use Rattle.std.specs.Prelude.{◌≡◌};
ghost use Rattle.game_rules.specs.Game.{Sound};

use crate::kings::is_sound;
use crate::sessions::game_row;
use crate::solving::solver_row;
use chess_game::{
    Frame, Illegal, Kind, Move, Place, Position, Side, Unsound, attacked, free_way, in_check,
    mated, ray, soundness, try_move,
};
use chess_text::{MoveText, MoveWhy, PositionReader, Typed, read_move};
use rule_formula::{Opt, masks, options};
use trial_rows::{Named, Row, RowError, numbers};

/// Parses a side from the next field.
pub fn side(row: &mut Row) -> Result<Side, RowError> {
    match row.word()? {
        "W" => Ok(Side::White),
        "B" => Ok(Side::Black),
        _ => Err(RowError::Word),
    }
}

/// Returns the symbol of a side.
pub fn side_letter(side: Side) -> char {
    match side {
        Side::White => 'W',
        Side::Black => 'B',
    }
}

/// The kind of man of a letter.
fn kind_of(letter: &str) -> Result<Kind, RowError> {
    match letter {
        "K" => Ok(Kind::King),
        "Q" => Ok(Kind::Queen),
        "R" => Ok(Kind::Rook),
        "B" => Ok(Kind::Bishop),
        "N" => Ok(Kind::Knight),
        "P" => Ok(Kind::Pawn),
        "C" => Ok(Kind::Chancellor),
        "A" => Ok(Kind::Archbishop),
        "Z" => Ok(Kind::Amazon),
        "H" => Ok(Kind::Nightrider),
        _ => Err(RowError::Word),
    }
}

/// The position of the lines between the first line of its text and the last.
fn position_of(lines: &str) -> Result<Position, RowError> {
    let mut reader = PositionReader::new();
    let _ = reader.feed_line(b"infinite chess 1");
    for line in lines.split('/') {
        let _ = reader.feed_line(line.as_bytes());
    }
    match reader.feed_line(b"end") {
        Ok(fed) => match fed.whole() {
            Some((position, _)) => Ok(position),
            None => Err(RowError::Word),
        },
        Err(_) => Err(RowError::Word),
    }
}

/// Runs `position NAME LINES`: names a position.
pub fn position_row(positions: &mut Named<Position>, row: &mut Row) -> Result<(), RowError> {
    let name = row.word()?;
    let position = position_of(row.rest())?;
    positions.put(row.alloc, name, position)
}

/// Runs `KIND NAME ..`: writes the result of a row of this kind for the position of a name.
pub fn of_position(positions: &Named<Position>, kind: &str, row: &mut Row) -> Result<(), RowError> {
    let position = positions.next(row)?;
    match kind {
        "soundness" => {
            soundness_row(position, row);
            Ok(())
        }
        "attacked" => attacked_row(position, row),
        "way" => way_row(position, row),
        "options" => options_row(position, row),
        "masks" => mask_row(position, row),
        _ => of_sound_position(positions, position, kind, row),
    }
}

/// Writes the result of a row of this kind for a sound position, in which a side may have no king.
fn of_sound_position(
    positions: &Named<Position>,
    position: &Position,
    kind: &str,
    row: &mut Row,
) -> Result<(), RowError> {
    if !is_sound(position) {
        return Err(RowError::Condition);
    }
    match kind {
        "move" => move_row(position, row),
        "king" => {
            king_row(position, row);
            Ok(())
        }
        "solver" => solver_row(positions, position, row),
        "game" => game_row(position, row),
        _ => Err(RowError::Kind),
    }
}

/// `soundness NAME`: whether the position is sound, or the first reason why not.
fn soundness_row(position: &Position, row: &mut Row) {
    match soundness(position) {
        Ok(()) => row.write("sound"),
        Err(why) => write_unsound(row, why),
    }
}

fn write_unsound(row: &mut Row, why: Unsound) {
    match why {
        Unsound::NoKing(side) => row.write_labelled("no king ", side_letter(side)),
        Unsound::ManyKings(side) => row.write_labelled("many kings ", side_letter(side)),
        Unsound::KingGone(side) => row.write_labelled("king gone ", side_letter(side)),
        Unsound::SameSquare(a, b) => {
            row.write("same square ");
            row.write_numbers(&[a, b], ' ');
        }
        Unsound::OtherInCheck => row.write("other side in check"),
    }
}

/// Returns the words for a refused move.
pub fn illegal_words(why: Illegal) -> &'static str {
    match why {
        Illegal::NoSuchMan => "no such man",
        Illegal::NotYours => "not yours",
        Illegal::Captured => "captured",
        Illegal::OwnMan => "own man",
        Illegal::NotReached => "not reached",
        Illegal::KingLeft => "king left",
    }
}

/// Parses a move from the next three fields: the man's number, and the square.
pub fn move_of(row: &mut Row) -> Result<Move, RowError> {
    let (man, x, y) = row.three_numbers()?;
    Ok(Move { man, x, y })
}

/// Runs `move NAME M X Y`: the reason why the move is refused, or the live men after it, the side to move, and whether
/// it is mated.
fn move_row(position: &Position, row: &mut Row) -> Result<(), RowError>
    requires { Sound position.now }
{
    let mv = move_of(row)?;
    match try_move(position, mv) {
        Err(why) => {
            row.write(illegal_words(why));
            Ok(())
        }
        Ok(made) => write_made(row, &made),
    }
}

fn write_made(row: &mut Row, made: &Position) -> Result<(), RowError> {
    if !is_sound(made) {
        return Err(RowError::Condition);
    }
    row.write_labelled("legal men ", made.mask());
    row.write_labelled(" turn ", side_letter(made.turn()));
    write_mated(row, made);
    Ok(())
}

/// Writes whether the side to move is mated.
fn write_mated(row: &mut Row, position: &Position)
    requires { Sound position.now }
{
    row.write(" mated ");
    row.write_truth(mated(position));
}

/// `king NAME`: whether the side to move is in check, and whether it is mated.
fn king_row(position: &Position, row: &mut Row)
    requires { Sound position.now }
{
    row.write("check ");
    row.write_truth(in_check(position));
    write_mated(row, position);
}

/// `attacked NAME SIDE X Y`: whether a man of the side bears on the square.
fn attacked_row(position: &Position, row: &mut Row) -> Result<(), RowError> {
    let side = side(row)?;
    let (x, y) = row.two_numbers::<i64, i64>()?;
    row.write_truth(attacked(position, side, x, y));
    Ok(())
}

/// Runs `ray KIND SIDE NUMBER`: the step of a ray, and whether it may be repeated.
pub fn ray_row(row: &mut Row) -> Result<(), RowError> {
    let kind = kind_of(row.word()?)?;
    let side = side(row)?;
    match ray(kind, side, row.number::<u8>()?) {
        Some(ray) => {
            row.write_numbers(&[ray.dx, ray.dy], ' ');
            row.write(if ray.far { " far" } else { " near" });
        }
        None => row.write("none"),
    }
    Ok(())
}

/// Parses a frame: `whole`, or its least and greatest x and y.
pub fn frame(row: &mut Row) -> Result<Frame, RowError> {
    match row.word()? {
        "whole" => Ok(Frame::whole()),
        edges => {
            let edges = numbers::<i64>(row.alloc, edges)?;
            frame_within(edges.as_slice())
        }
    }
}

fn frame_within(edges: &[i64]) -> Result<Frame, RowError> {
    match edges {
        [x_low, x_high, y_low, y_high] => Ok(Frame {
            x_low: *x_low,
            x_high: *x_high,
            y_low: *y_low,
            y_high: *y_high,
        }),
        _ => Err(RowError::Word),
    }
}

/// `way NAME MAN RAY FRAME`: the distances that the man may go along the ray, and whom he meets.
fn way_row(position: &Position, row: &mut Row) -> Result<(), RowError> {
    let (number, index) = row.two_numbers::<u8, u8>()?;
    let frame = frame(row)?;
    if number < 1 || number > position.count() {
        return Err(RowError::Condition);
    }
    let man = position.man(number);
    let Some(ray) = ray(man.kind, man.side, index) else {
        return Err(RowError::Condition);
    };
    if let Place::Gone = man.place {
        return Err(RowError::Condition);
    }
    let way = free_way(position, number, ray, frame);
    row.write_number(way.near);
    row.write_labelled(" to ", way.far);
    match way.hits {
        Some(man) => row.write_labelled(" hits ", man),
        None => row.write(" hits none"),
    }
    Ok(())
}

/// Runs `reply TEXT`: the move that a line spells, or why it spells none.
pub fn reply_row(row: &mut Row) -> Result<(), RowError> {
    match read_move(row.rest().as_bytes()) {
        Ok(Typed::Move(mv)) => return write_move(row, mv),
        Ok(Typed::Quit) => row.write("quit"),
        Err(MoveWhy::Shape) => row.write("shape"),
        Err(MoveWhy::Number) => row.write("number"),
    }
    Ok(())
}

fn write_move(row: &mut Row, mv: Move) -> Result<(), RowError> {
    if mv.man < 1 || mv.man > 8 {
        return Err(RowError::Condition);
    }
    row.write("move ");
    row.write_bytes(MoveText::new().write(mv));
    Ok(())
}

/// Runs `options NAME MASK SIDE`: the options of the side's men, each as man, ray and the captured man.
fn options_row(position: &Position, row: &mut Row) -> Result<(), RowError> {
    let mask = row.number::<u8>()?;
    let side = side(row)?;
    let ways = options(row.alloc, position, mask, side)?;
    write_options(row, ways.as_slice());
    Ok(())
}

fn write_options(row: &mut Row, ways: &[Opt]) {
    for (place, way) in ways.iter().enumerate() {
        row.separate(place, ' ');
        row.write_numbers(&[way.man, way.ray, way.taken], '/');
    }
}

/// `masks NAME`: the sets of live men that there may be in a game from the position.
fn mask_row(position: &Position, row: &mut Row) -> Result<(), RowError> {
    let masks = masks(row.alloc, position)?;
    row.write_numbers(masks.as_slice(), ' ');
    Ok(())
}
