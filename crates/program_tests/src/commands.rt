//! The commands over files: the lines and exit statuses of faults that no run reaches, writes that fail without a buffer before them, and
//! sets of all locates.
mod blocks;
mod cases;
mod examples;
mod failing_devices;
mod joins;
mod points;
mod refusals;
mod restricted;
mod stocks;
