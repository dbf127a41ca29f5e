//! The law of normal forms.
ghost use Rattle.normal_form.specs.Laws.{NormalForms};

use reader::Module;

// Does nothing: its contract is the law.
pub fn normal_forms<M: Module>()
    ensures { NormalForms M.Module.meaning }
{}
