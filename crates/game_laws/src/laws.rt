//! The laws of the game (FIDE Laws of Chess, Articles 3 and 5).

ghost use Rattle.game_laws.specs.Laws.{BearsAlongRays, BearsOpenly, ExchangeKeepsValue, KeepsSound, LosesMonotonically, LostAtOnceIsMate, LostIsFlat, MateByRays, MateOrMove, ReflectionKeepsValue, ShiftKeepsGame, ShiftKeepsValue, SparesKings, StepsOnOneRay, WinsMonotonically};
ghost use Rattle.game_laws.specs.Symmetry.{KeepsGame, colour_exchange, reflection};

/// States that no step from a sound position captures a king.
pub fn kings_are_spared()
    ensures { SparesKings }
{}

/// States that a legal move keeps a position sound.
pub fn legal_keeps_sound()
    ensures { KeepsSound }
{}

/// States that a mate within k moves is also a mate within any n ≥ k, for the side that mates and for the side that is
/// mated.
pub fn more_moves_lose_nothing()
    ensures wins { WinsMonotonically }
    ensures loses { LosesMonotonically }
{}

/// States that a position is lost within 0 moves if and only if the loser is to move and is mate.
pub fn lost_at_once_is_mate()
    ensures { LostAtOnceIsMate }
{}

/// States that moving all men by one offset changes nothing: moves are legal, positions are sound or mate, and the
/// winner mates within n moves, if and only if that was so before.
pub fn moving_the_board_keeps_the_game()
    ensures value { ShiftKeepsValue }
    ensures game { ShiftKeepsGame }
{}

/// States that exchanging right and left changes nothing in the game.
pub fn reflecting_the_board_keeps_the_game()
    ensures value { ReflectionKeepsValue }
    ensures game { KeepsGame reflection }
{}

/// States that exchanging the colours, and up and down with them, changes nothing but the sides: White mates within n
/// moves of one position if and only if Black does of the other.
pub fn exchanging_the_colours_keeps_the_game()
    ensures value { ExchangeKeepsValue }
    ensures game { KeepsGame colour_exchange }
{}

/// States that each step lies on exactly one ray of the table at exactly one distance, and that this ray serves that
/// kind of step.
pub fn steps_lie_on_one_ray()
    ensures { StepsOnOneRay }
{}

/// States that a man bears on a square if and only if he reaches it on an empty board and no man is in between.
pub fn men_bear_over_open_lines()
    ensures { BearsOpenly }
{}

/// States that a man bears on a square if and only if a ray that serves captures goes there, and no man is in between
/// if the ray is far.
pub fn men_bear_along_rays()
    ensures { BearsAlongRays }
{}

/// States that a side in check at a sound position is mated or has a legal move.
pub fn mate_or_move()
    ensures { MateOrMove }
{}

/// States that two forms of losing are equivalent: to be mate, or to have a legal move and lose after each; and to be
/// in check or have a legal move, and to lose after each.
pub fn lost_is_flat()
    ensures { LostIsFlat }
{}

/// States which squares decide whether a check is mate. Only the checking man's square and those between him and the
/// king answer the check, and each ray of a man meets at most one of them, unless it goes along the line. So it is mate
/// if and only if no man has a legal move to the one square on each of his rays.
pub fn mate_by_rays()
    ensures { MateByRays }
{}
