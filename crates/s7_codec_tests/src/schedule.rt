//! Tests of the numbers that a schedule draws.
use s7_schedule::Draw;

/// Seeds, and the numbers that are drawn. They are the first ones of the C standard's example of `rand`, which has the
/// same congruence, modulo 2^31.
const NUMBERS: &[(u32, [u32; 5])] = &[
    (0, [0, 21_468, 9_988, 22_117, 3_498]),
    (7, [19_564, 9_806, 10_868, 22_674, 32_531]),
    (2_147_483_648, [0, 21_468, 9_988, 22_117, 3_498]),
];

/// The numbers of the rows are drawn.
#[test]
fn numbers_are_drawn(rt: HostRuntime) {
    for &(seed, numbers) in NUMBERS {
        let mut draw = Draw::new(seed);
        for number in numbers {
            assert!(rt; draw.below(32_768) == number);
        }
    }
}

/// Numbers of actors, and the actors whose turns come with the seed 0.
const TURNS: &[(usize, [usize; 5])] = &[(2, [0, 0, 0, 1, 0]), (6, [0, 0, 4, 1, 0])];

/// Reports whether the next turn is that of this actor.
fn is_turn(draw: &mut Draw, actors: usize, actor: usize) -> bool {
    actors > 0 && draw.actor(actors) == actor
}

/// The turns of the rows are drawn.
#[test]
fn actors_are_drawn(rt: HostRuntime) {
    for &(actors, turns) in TURNS {
        let mut draw = Draw::new(0);
        for actor in turns {
            assert!(rt; is_turn(&mut draw, actors, actor));
        }
    }
}
