// One of two values: where both are at hand the compiler needs no branch. For what cannot be predicted, as whether a node has a sibling.
ghost use Rattle.std.specs.Prelude.{◌≡◌, cond};

pub fn choose<T: Copy>(first: bool, a: T, b: T) -> T
    ensures { result ≡ cond first a b }
{
    if first { a } else { b }
}
