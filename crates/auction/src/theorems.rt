// What the points of the two programmes are, and what a bound of their objectives says of an auction.
ghost use Rattle.auction.specs.Figures.{WorkedBounds};
ghost use Rattle.auction.specs.Theorems.{PointsAreClearings, PointsArePriceLists, WelfareStaysBelow, CostsStayAbove};

// The points of the acceptance programme are the clearings that keep the rules on orders, and its objective is welfare.
pub fn points_are_clearings()
    ensures { PointsAreClearings }
{}

// The points of the price programme are the price lists that keep the price rules, and its objective is minus the cost.
pub fn points_are_price_lists()
    ensures { PointsArePriceLists }
{}

// A bound of the acceptance programme bounds the welfare of every clearing that keeps the rules on orders.
pub fn welfare_stays_below()
    ensures { WelfareStaysBelow }
{}

// A bound of the price programme bounds what any price list that keeps the price rules could save.
pub fn costs_stay_above()
    ensures { CostsStayAbove }
{}

// What three leaves prove of a worked market.
pub fn worked_bounds()
    ensures { WorkedBounds }
{}
