//! Tests of how statements are printed in both dialects, of what implements `lq_model`'s traits, and of
//! canonical text.
#![tactic(auto)]

#[cfg(test)]
mod canonical;
#[cfg(test)]
mod printing;
#[cfg(test)]
mod samples;
#[cfg(test)]
mod shown;
