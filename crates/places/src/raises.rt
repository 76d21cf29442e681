// Counts that are raised at listed places.
ghost use Rattle.std.specs.Prelude.{◌≡◌};
ghost use Rattle.places.specs.Raises.{raise_each, Raisable};

// One more at each place, counted from at on.
#[tactic(auto, using(crate::proofs::RaiseLaws::raise_there, crate::proofs::RaiseLaws::raise_room))]
pub fn raise_each(register: &mut [u32], at: usize, places: &[u16])
    requires { Raisable at places.now register.old }
    ensures { register.new ≡ raise_each at places.now register.old }
{
    for place in places {
        register[at + *place as usize] += 1;
    }
}
