mod crowd;
mod held;
