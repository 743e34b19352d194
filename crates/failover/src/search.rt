ghost use Rattle.std.specs.Prelude.{◌≡◌, ◌<◌, ◌∷◌, IfSome, IfNone};
ghost use Rattle.failover.specs.Exports.{AreRouteBalls, IsRouteLinksAway, IsRouteBallEdge, IsOutOfFailoverReach, IsRouteList, route_path_by_balls, first_route, advertised_links_of_each, route_to, grown_route_ball};

use crate::down_set::DownSet;
use crate::links::links_within;
use crate::path::Route;
use base::{MAX_SWITCHES, has, only_if};

// A switch's links are found when the search comes to it, so that others cost nothing.

/// The least path to the first of the targets that a path of links reaches; `None` exactly if no
/// path reaches any.
pub fn first_route(
    neighbours: &[u64; 64],
    down: &DownSet,
    from: u32,
    targets: &[u32],
) -> Option<Route>
    ensures { result ≡ first_route (advertised_links_of_each neighbours.now down.now) from targets.now }
{
    for target in targets {
        if let Some(route) = route_to(neighbours, down, from, *target) {
            return Some(route);
        }
    }
    None
}

// The least path to the target.
fn route_to(neighbours: &[u64; 64], down: &DownSet, from: u32, target: u32) -> Option<Route>
    ensures { result ≡ route_to (advertised_links_of_each neighbours.now down.now) from target }
{
    if from >= MAX_SWITCHES || target >= MAX_SWITCHES {
        return None;
    }
    let mut balls = [0; 64];
    let distance = distance(neighbours, down, &mut balls, from, target)?;
    Some(walk_failover_route(neighbours, down, &balls, distance, from))
}

// How many links `from` is away from the target; `None` if no path leads there. At each place k
// below that number `balls` gets the switches that are at most k links away.
fn distance(
    neighbours: &[u64; 64],
    down: &DownSet,
    balls: &mut [u64; 64],
    from: u32,
    target: u32,
) -> Option<usize>
    requires from { from < 64 }
    requires target { target < 64 }
    ensures away { IfSome result (λ k. IsRouteLinksAway (advertised_links_of_each neighbours.now down.now) target k from) }
    ensures balls { IfSome result (AreRouteBalls (advertised_links_of_each neighbours.now down.now) target balls.new) }
    ensures none { IfNone result (IsOutOfFailoverReach (advertised_links_of_each neighbours.now down.now) target from) }
{
    let mut ball = only_if(true, target);
    let mut edge = ball;
    for k in 0..64 {
        if has(ball, from) {
            return Some(k);
        }
        balls[k] = ball;
        // The links of one switch decide this; growing the ball, mostly the widest step, would need
        // those of each switch of the edge.
        if links_within(neighbours, down, from, ball) != 0 {
            return Some(k + 1);
        }
        let wide = widened_route_ball(neighbours, down, ball, edge);
        if wide == ball {
            return None;
        }
        edge = ball ^ wide;
        ball = wide;
    }
    None
}

// The ball, and the switches to which a switch of it has a link. Only the edge is searched, because
// the links of all others stay within the ball.
fn widened_route_ball(neighbours: &[u64; 64], down: &DownSet, ball: u64, edge: u64) -> u64
    requires { IsRouteBallEdge (advertised_links_of_each neighbours.now down.now) ball edge }
    ensures { result ≡ grown_route_ball (advertised_links_of_each neighbours.now down.now) ball }
{
    let mut wide = ball;
    let mut rest = edge;
    while rest != 0 {
        let at = rest.trailing_zeros();
        wide |= links_within(neighbours, down, at, !wide);
        rest ^= only_if(true, at);
    }
    wide
}

// The route from `from`: each time to the least switch that is one link nearer.
fn walk_failover_route(
    neighbours: &[u64; 64],
    down: &DownSet,
    balls: &[u64; 64],
    distance: usize,
    from: u32,
) -> Route
    requires { IsRouteList
        (from ∷ route_path_by_balls (advertised_links_of_each neighbours.now down.now) balls.now distance from) }
    ensures { result ≡ from ∷ route_path_by_balls (advertised_links_of_each neighbours.now down.now) balls.now
        distance from }
{
    let mut switches = [0; 64];
    switches[0] = from;
    let mut at = from;
    for step in 0..distance {
        at = links_within(neighbours, down, at, balls[distance - 1 - step]).trailing_zeros();
        switches[step + 1] = at;
    }
    Route::new(switches, distance as u8 + 1)
}
