//! Why there is no answer.

use sd_store::{EditError, Gone, PublishError};
use sd_versions::StartError;
use thiserror::Error;

/// Why there is no answer: the error of the first call that failed.
#[derive(Clone, Copy, Debug, PartialEq, Eq, Error)]
pub enum AskError {
    /// The store didn't start.
    #[error("{0}")]
    Start(StartError),
    /// An edit wasn't accepted.
    #[error("{0}")]
    Edit(EditError),
    /// Nothing was published.
    #[error("{0}")]
    Publish(PublishError),
    /// The check read nothing, or found less than the checker had learned.
    #[error("{0}")]
    Gone(Gone),
}

impl From<StartError> for AskError {
    ghost use Rattle.std.specs.Prelude.{◌≡◌};
    ghost use Rattle.sd_store_example.specs.declared.error.AskError.TheVariants as ask;

    ghost from_gives = { λ error given. given ≡ ask.Start error };

    fn from(error: StartError) -> AskError {
        AskError::Start(error)
    }
}

impl From<EditError> for AskError {
    ghost use Rattle.std.specs.Prelude.{◌≡◌};
    ghost use Rattle.sd_store_example.specs.declared.error.AskError.TheVariants as ask;

    ghost from_gives = { λ error given. given ≡ ask.Edit error };

    fn from(error: EditError) -> AskError {
        AskError::Edit(error)
    }
}

impl From<PublishError> for AskError {
    ghost use Rattle.std.specs.Prelude.{◌≡◌};
    ghost use Rattle.sd_store_example.specs.declared.error.AskError.TheVariants as ask;

    ghost from_gives = { λ error given. given ≡ ask.Publish error };

    fn from(error: PublishError) -> AskError {
        AskError::Publish(error)
    }
}

impl From<Gone> for AskError {
    ghost use Rattle.std.specs.Prelude.{◌≡◌};
    ghost use Rattle.sd_store_example.specs.declared.error.AskError.TheVariants as ask;

    ghost from_gives = { λ error given. given ≡ ask.Gone error };

    fn from(error: Gone) -> AskError {
        AskError::Gone(error)
    }
}
