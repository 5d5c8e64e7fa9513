//! Laws of limits. These functions do nothing: their contracts are the laws.

ghost use Rattle.accept_limit.specs.Arrivals.{FollowsHistory, HasRoomForAll, IsWithinLimit};

/// Whatever comes, and in whatever order: of one address at most so many are accepted in any second.
pub fn window_law()
    ensures { IsWithinLimit }
{}

/// What a limit answers is what all that it accepted before says, though it keeps only those of the last second: of connections
/// that come in the order of time.
pub fn history_law()
    ensures { FollowsHistory }
{}

/// Whatever comes, at most 4,096 connections are kept in mind.
pub fn room_law()
    ensures { HasRoomForAll }
{}
