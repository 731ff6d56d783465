// A law about forms and their trees. The function is its contract.
ghost use Rattle.std.specs.Prelude.{◌≡◌, Some};
ghost use Rattle.ps_types.specs.declared.form.Form.{Form};
ghost use Rattle.ps_types.specs.Forms.{form_of, form_tree};
ghost use Rattle.ps_forms.specs.Vars.{HaveVars};

/// What is printed for a form whose fields have a var reads as that form.
pub fn printed_form_reads_back()
    ensures { (form : Form) → HaveVars form.fields → form_of (form_tree form) ≡ Some form }
{}
