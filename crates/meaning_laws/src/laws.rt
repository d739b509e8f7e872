//! What holds of terms in every context, and of programs without `fix`.

ghost use Rattle.net_build.specs.Laws.{BuiltSound};
ghost use Rattle.meaning_laws.specs.Laws.{ClosedPut, TypedClosed, InEveryContext, KeepTypes, KeepPrograms, RewritesKeep};
ghost use Rattle.meaning_laws.specs.Laws.{NoFixValue, NoFixLength};
ghost use Rattle.meaning_laws.specs.Examples.{ExamplePut, ExampleContexts, ExampleRewrites, ExampleNoFix};

/// What is put for an index is what the meaning puts, where it is closed; and each term that has a type with no free variable's is closed.
pub fn law_closed()
    ensures put { ClosedPut }
    ensures typed { TypedClosed }
{}

/// Each equation holds in every context: a term with the left side at some place, which is closed, means what the term with the right side
/// means there.
pub fn law_equations()
    ensures { InEveryContext }
{}

/// And programs stay programs, by any number of equations: the type is kept, the values are the same, and so are those of the nets, whose
/// lengths may differ.
pub fn law_programs()
    ensures types { KeepTypes }
    ensures programs { KeepPrograms }
    ensures rewrites { RewritesKeep }
{
    net_build::law_built_sound();
}

/// A closed term of type `nat` without `fix` means a value, and its net has that value and a length (Tait).
pub fn law_no_fix()
    ensures value { NoFixValue }
    ensures length { NoFixLength }
{
    net_build::law_built_sound();
}

/// Terms that are put below binders, both sides of equations in contexts with their values, and terms with and without `fix`.
pub fn law_example_equations()
    ensures put { ExamplePut }
    ensures contexts { ExampleContexts }
    ensures rewrites { ExampleRewrites }
    ensures no_fix { ExampleNoFix }
{}
