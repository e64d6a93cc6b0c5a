//! Formats of proofs.

/// The format of a proof's text.
#[derive(Clone, Copy, Debug, Drop, PartialEq, Eq)]
pub enum ProofFormat {
    /// Proof steps in binary, as `sat_checker` reads them.
    Varisat,
    /// DRAT lines in decimal.
    Drat,
    /// DRAT lines in binary.
    BinaryDrat,
}
