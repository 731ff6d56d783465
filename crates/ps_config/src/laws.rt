// Laws about configurations, options and their forms. Each function is its contract.
ghost use Rattle.std.specs.Prelude.{◌≡◌, Bool, Ok};
ghost use Rattle.ps_types.specs.declared.config.NodeConfig.{NodeConfig};
ghost use Rattle.ps_types.specs.declared.config.SubOptions.{SubOptions};
ghost use Rattle.ps_types.specs.declared.form.Form.{Form};
ghost use Rattle.ps_types.specs.Config.{read_config, config_form};
ghost use Rattle.ps_types.specs.Defaults.{default_config};
ghost use Rattle.ps_types.specs.Options.{read_options, options_form};
ghost use Rattle.ps_config.specs.Bounds.{IsConfig};

/// What is printed for a configuration reads as that configuration, whatever the base.
pub fn printed_config_reads_back()
    ensures { (config base : NodeConfig) → IsConfig config → read_config (config_form config) base ≡ Ok config }
{}

/// What is read against a configuration within the bounds is within them, and so are the configurations of new nodes.
pub fn configs_stay_bounded()
    ensures read { (form : Form) (base config : NodeConfig) → IsConfig base → read_config form base ≡ Ok config
        → IsConfig config }
    ensures new { (pep : Bool) → IsConfig (default_config pep) }
{}

/// What is printed for options reads as those options, whatever the base.
pub fn printed_options_read_back()
    ensures { (options base : SubOptions) → read_options (options_form options) base ≡ Ok options }
{}
