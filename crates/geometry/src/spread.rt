// The two numbers that a tree's levels follow from: how many levels there are, how wide each is, and where it starts.
ghost use Rattle.std.specs.Prelude.{◌≡◌, ◌^◌, ◌<◌, ◌≤◌};
ghost use Rattle.geometry.specs.Limits.{starts as starts_of};
ghost use Rattle.tree.specs.Shape.{fanout as fanout_of, levels as levels_of, levels_of as least_levels, Shape, width as width_of};

// The slots of a tree block, and the data blocks.
#[derive(Clone, Copy)]
pub(crate) struct Spread {
    pub(crate) fanout: usize,
    pub(crate) blocks: usize,
    ghost wide: { 8 ≤ fanout },
    ghost narrow: { fanout ≤ 128 },
    ghost some: { 1 ≤ blocks },
    ghost few: { blocks ≤ 1048576 },
}

impl Spread {
    // The blocks that one block `steps` steps above the data reaches.
    #[tactic(auto, using(crate::proofs::Counting::reach_bounds))]
    fn reach(self, steps: u32) -> usize
        requires { steps ≤ 7 }
        ensures value { result ≡ self.fanout ^ steps }
        ensures some { 1 ≤ result }
        ensures bound { result ≤ 2 ^ 49 }
    {
        self.fanout.pow(steps)
    }

    // The least number of levels, 0 included, that reach every block.
    pub(crate) fn levels(self) -> usize
        ensures value { result ≡ least_levels self.fanout self.blocks }
        ensures bound { result ≤ 7 }
    {
        let least = (0..7).find(
            |levels|
                requires { levels.now < 7 }
            { self.reach(*levels) >= self.blocks },
        );
        least.unwrap_or(7) as usize
    }

    // The blocks `steps` steps above the data.
    #[tactic(auto, using(crate::proofs::Counting::rounded_le), unfolding(tree::specs::Shape::width))]
    pub(crate) fn width(self, steps: u32) -> usize
        requires { steps ≤ 7 }
        ensures value { (s : Shape) → fanout_of s ≡ self.fanout → s.blocks ≡ self.blocks → result ≡ width_of s steps }
        ensures bound { result ≤ self.blocks }
    {
        let reach = self.reach(steps);
        (self.blocks + reach - 1) / reach
    }

    // Where each level starts: the levels above it come first.
    pub(crate) fn starts(self, levels: usize) -> [usize; 7]
        requires { levels ≤ 7 }
        ensures { (s : Shape) → fanout_of s ≡ self.fanout → s.blocks ≡ self.blocks → levels_of s ≡ levels → result ≡ starts_of s }
    {
        let mut starts = [0; 7];
        let mut total = 0;
        // by the level's number: its width needs it too, so an iterator over the array would have to bring it back
        for i in (0..levels).rev() {
            starts[i] = total;
            total += self.width(i as u32 + 1);
        }
        starts
    }
}
