// Values into the slice that is lent for them.
ghost use Rattle.std.specs.Prelude.{◌≡◌, [], ◌∷◌, length};

pub(crate) fn two(values: &mut [u64], first: u64, second: u64)
    requires { length values.old ≡ 2 }
    ensures { values.new ≡ first ∷ second ∷ [] }
{
    values[0] = first;
    values[1] = second;
}

pub(crate) fn three(values: &mut [u64], first: u64, second: u64, third: u64)
    requires { length values.old ≡ 3 }
    ensures { values.new ≡ first ∷ second ∷ third ∷ [] }
{
    values[0] = first;
    values[1] = second;
    values[2] = third;
}

pub(crate) fn four(values: &mut [u64], first: u64, second: u64, third: u64, fourth: u64)
    requires { length values.old ≡ 4 }
    ensures { values.new ≡ first ∷ second ∷ third ∷ fourth ∷ [] }
{
    values[0] = first;
    values[1] = second;
    values[2] = third;
    values[3] = fourth;
}

pub(crate) fn eight(
    values: &mut [u64],
    first: u64,
    second: u64,
    third: u64,
    fourth: u64,
    fifth: u64,
    sixth: u64,
    seventh: u64,
    eighth: u64,
)
    requires { length values.old ≡ 8 }
    ensures { values.new ≡ first ∷ second ∷ third ∷ fourth ∷ fifth ∷ sixth ∷ seventh ∷ eighth ∷ [] }
{
    values[0] = first;
    values[1] = second;
    values[2] = third;
    values[3] = fourth;
    values[4] = fifth;
    values[5] = sixth;
    values[6] = seventh;
    values[7] = eighth;
}
