ghost use Rattle.std.specs.Prelude.{◌≡◌};
ghost use Rattle.spec_table.specs.Innermost.{innermost};

use spec_step::Param;

/// What a parameter stands for: a typed value stands for what it holds, also one in another.
pub fn innermost(param: &Param) -> &Param
    ensures { result.now ≡ innermost param.now }
{
    let mut found = param;
    while let Param::Typed(_, inner) = found {
        found = inner.get();
    }
    found
}
