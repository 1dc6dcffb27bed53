//! Tests of the commands over files in memory: `rb_convert`, `rb_inspect` and `rb_console`; and of the explanations of error
//! codes: `rb_explain`. What commands print and leave is tested by the script `tests/test_commands.py`.
#![tactic(auto)]

#[cfg(test)]
mod commands;
#[cfg(test)]
mod explain;
