//! Laws on the ways that are judged. This function does nothing: its contract is the laws.

ghost use Rattle.cli_offers.specs.Judged.{EachBeginIsJudged, EachIsLawful, EachPairEndsAWay, EachPairIsJudged, WaysAreThoseJudged};

/// Whatever the screens are and wherever their keys lead. A way is judged where the first way to its last screen but one is all of
/// it up to there: that with the fewest screens, and of as many the one that comes first in the manifest. The list has these ways
/// and those of one screen, no other, each once and in its turn, and is the only such list. Each of its ways is lawful; each screen
/// that begins with an erase is judged by itself, and so is the first; and wherever screens lead from one that begins with an
/// erase, each pair of the screen there and one over it is judged, on a way from that one. Such a way ends with the pair, if that
/// isn't the first and one over it, after which that one is shown again.
pub fn ways_law()
    ensures all { WaysAreThoseJudged }
    ensures lawful { EachIsLawful }
    ensures begins { EachBeginIsJudged }
    ensures pairs { EachPairIsJudged }
    ensures ends { EachPairEndsAWay }
{}
