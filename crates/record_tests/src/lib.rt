// Tests of records, read and written: tables of bytes, each fault at its border. They stand here so that the crates they test
// are proved once and not twice.
#![tactic(auto)]

#[cfg(test)]
mod inputs;
#[cfg(test)]
mod outputs;
