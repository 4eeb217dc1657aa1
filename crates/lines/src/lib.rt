// Lists of lines, and the plan for huts of which some have no line between them. The definitions stand in specs/, the proofs in proofs/.
// A function with nothing to do is a theorem: its contract states it, and the crate is proved only with its proof.
#![tactic(auto)]

ghost use Rattle.lines.specs.Law.{LinesSound, JoinedByWay, DistanceShortest, SmallestSquare, RowSorted, PartnerNearest, PlanDoes};

// Lines without a fault go both ways, between different huts that are there.
pub fn lines_are_sound()
    ensures { LinesSound }
{}

// A hut is joined exactly if a way of lines leads from it to hut 0.
pub fn joined_by_a_way()
    ensures { JoinedByWay }
{}

// The distance is the length of a way to the middle, and no way is shorter.
pub fn distance_is_shortest()
    ensures { DistanceShortest }
{}

// The smallest square is one and none is smaller; there is none only if no four huts whatever have lines round a square.
pub fn square_is_smallest()
    ensures { SmallestSquare }
{}

// The row has each hut outside the middle once, nearer ones first, lower ones first among equals.
pub fn row_is_sorted()
    ensures { RowSorted }
{}

// The partner is a neighbour, nearer to the middle by a line, with no neighbour nearer and none as near lower.
pub fn partner_is_nearest()
    ensures { PartnerNearest }
{}

// The plan's calls are along lines and bring everything to everybody: 2n - 4 with a square, 2n - 3 without.
pub fn plan_does_it()
    ensures { PlanDoes }
{}
