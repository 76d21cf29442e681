// An item's figure and the group's figure.
#![tactic(auto)]

ghost use Rattle.std.specs.Prelude.{◌≡◌, [], ◌∷◌, ◌+◌, ◌≤◌};
ghost use Rattle.model.specs.Figures.{figure_of};
ghost use Rattle.figures.specs.Figures.{figure_case, percent_of, present_of, group_case, item, sums, sums_from, AtMostFull, mean};

// An item's coverage as a percentage; nothing where its total is 0. It is document 01's form, an enum of its own and no Option.
#[derive(Clone, Copy)]
pub enum Figure {
    Percent(f64),
    Nothing,
}

// 100 * covered / total, rounded once.
pub fn item_figure(covered: u32, total: u32) -> Figure
    ensures { result ≡ figure_case (figure_of covered total) }
{
    if total == 0 {
        return Figure::Nothing;
    }
    let hundred = 100 * (covered as u64);
    Figure::Percent((hundred as f64) / (total as f64))
}

pub fn percent_of(f: Figure) -> f64
    ensures { result ≡ percent_of f }
{
    match f {
        Figure::Percent(p) => p,
        Figure::Nothing => 0.0,
    }
}

pub fn present(f: Figure) -> u32
    ensures { result ≡ present_of f }
{
    match f {
        Figure::Percent(_) => 1,
        Figure::Nothing => 0,
    }
}

// Over the items added so far: the sum of their weights, and the sum of their weighted figures.
#[derive(Clone, Copy)]
pub struct Group {
    pub weights: u64,
    pub sum: u64,
}

impl Group {
    pub fn new() -> Group
        ensures { (result ≡ sums []) × (result.weights ≡ 0) × AtMostFull result }
    {
        Group { weights: 0, sum: 0 }
    }

    // One item more. Weight 0 adds nothing to either sum.
    pub fn with_item(self, weight: u16, total: u32, covered: u32) -> Group
        requires { (self.weights ≤ 4294967295) × AtMostFull self × (covered ≤ total) }
        ensures { (result ≡ sums_from self (item weight total covered ∷ [])) × (result.weights ≤ self.weights + 65535) × AtMostFull result }
    {
        if total == 0 {
            return self;
        }
        let figure = 100000000 * (covered as u64) / (total as u64);
        let w = weight as u64;
        Group {
            weights: self.weights + w,
            sum: self.sum + w * figure,
        }
    }

    // The group's coverage in millionths of a percent: the weighted mean, rounded down; none where no item counts.
    pub fn figure(self) -> Option<u32>
        requires { AtMostFull self }
        ensures { result ≡ group_case (mean self) }
    {
        let weights = self.weights;
        if weights == 0 {
            return None;
        }
        Some((self.sum / weights) as u32)
    }
}
