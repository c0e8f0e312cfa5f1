// The plain strip, used to say what is right: what each operation answers on it and leaves. No function stands here.
#![tactic(auto)]
