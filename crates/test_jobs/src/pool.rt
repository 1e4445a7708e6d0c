//! Jobs on worker threads: what no contract says of them.
#[cfg(test)]
mod closures;
#[cfg(test)]
mod fixtures;
#[cfg(test)]
mod gates;
#[cfg(test)]
mod hooks;
#[cfg(test)]
mod single;
#[cfg(test)]
mod starters;
