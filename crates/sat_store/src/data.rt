//! The data of a variable.
ghost use Rattle.std.specs.Prelude.{◌≡◌};

/// How a variable takes part in models.
#[derive(Clone, Copy, Debug, PartialEq, Eq)]
pub enum SamplingMode {
    /// Every model gives the variable a value.
    Sample,
    /// For every model of the other variables, some value of the variable completes the model.
    Witness,
    /// The variable has no user name.
    Hide,
}

/// The data of a variable, whether or not the search uses it.
#[derive(Clone, Drop)]
pub struct VarData {
    /// How the variable takes part in models.
    pub sampling_mode: SamplingMode,

    /// The value that a unit clause gives the variable, or `None`.
    pub unit: Option<bool>,

    /// Whether no clause contains the variable, except perhaps a unit clause.
    pub isolated: bool,

    /// Whether an assumption contains the variable.
    pub assumed: bool,

    /// Whether the variable is not in use.
    pub deleted: bool,
}

impl Default for VarData {
    ghost use Rattle.std.specs.Prelude.{◌≡◌};
    ghost use Rattle.sat_store.specs.variables.VarData.{unused_variable};

    ghost is_default = { λ d. d ≡ unused_variable };

    /// Returns the data of a variable that is not in use.
    fn default() -> VarData {
        VarData {
            sampling_mode: SamplingMode::Hide,
            unit: None,
            isolated: true,
            assumed: false,
            deleted: true,
        }
    }
}

impl VarData {
    ghost use Rattle.sat_store.specs.variables.VarData.{user_variable};

    /// Returns the data of a new user variable.
    pub fn user_default() -> VarData
        ensures { result ≡ user_variable }
    {
        VarData {
            sampling_mode: SamplingMode::Sample,
            deleted: false,
            ..VarData::default()
        }
    }
}
