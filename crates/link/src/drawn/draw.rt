// The generator.
ghost use Rattle.std.specs.Prelude.{◌≡◌, ◌<◌, length};
ghost use Rattle.link.specs.Counts.{shifted, step, steps, drawn_count, drawn_counts};

use super::Generator;

// Exclusive or with itself shifted to the left, to the right, and to the left again.
fn xorshift(state: u32, left: u32, right: u32, last: u32) -> u32
    requires left { left < 32 }
    requires right { right < 32 }
    requires last { last < 32 }
    ensures { result ≡ shifted left right last state }
{
    let mut x = state;
    x ^= x << left;
    x ^= x >> right;
    x ^ (x << last)
}

impl Generator {
    // One step of xorshift32.
    #[tactic(auto, unfolding(crate::specs::Counts::step))]
    fn next(&mut self)
        ensures { self.new ≡ record self.old { state = step self.old.state } }
    {
        self.state = xorshift(self.state, 13, 17, 5);
    }

    // The count that the state draws: none where its upper 16 bits are below the loss figure.
    fn count(&self) -> u8
        ensures { result ≡ drawn_count self.now.loss self.now.state }
    {
        u8::from(self.state >> 16 >= u32::from(self.loss))
    }

    // Draws all counts, one step for each.
    #[tactic(auto, using(crate::proofs::Draws::drawing), unfolding(crate::specs::Counts::steps, crate::specs::Counts::drawn_counts))]
    pub(crate) fn draw(&mut self, counts: &mut [u8])
        ensures generator { self.new ≡ record self.old { state = steps (length counts.old) self.old.state } }
        ensures counts { counts.new ≡ drawn_counts (length counts.old) self.old.loss self.old.state }
    {
        for count in counts.iter_mut() {
            self.next();
            *count = self.count();
        }
    }
}
