// The worked examples: every figure that document 01 marks for proof, and those added with change requests, as one proved statement over one table.
#![tactic(auto)]

ghost use Rattle.std.specs.Prelude.{◌≡◌, length};
ghost use Rattle.worked.specs.Worked.{examples, AllAsPrinted};

// The number of worked examples. Each has the answer that is printed for it.
pub fn worked_examples() -> u64
    ensures value { result ≡ length examples }
    ensures printed { AllAsPrinted }
{
    33
}
